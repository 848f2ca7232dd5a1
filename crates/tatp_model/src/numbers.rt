//! The list that `GET_NEW_DESTINATION` answers.

/// A list of at most three phone numbers: the first `count` of `items`. The
/// items past `count` are 0 in each reply, so that equal lists are equal
/// values. Contracts name the value of a list by `numbers_of`, and the list
/// of a value by `list_of`, of `specs/Numbers.antt`.
#[derive(Clone, Copy, PartialEq, Eq)]
pub struct Numbers {
    pub count: u64,
    pub items: [u64; 3],
}

impl Numbers {
    ghost use Rattle.std.specs.Prelude.{◌≡◌, ◌+◌, ◌<◌, ◌≤◌, ◌==◌, []};
    ghost use Rattle.tatp_model.specs.Numbers.{HasAppended, numbers_of, list_of};

    /// The empty list.
    pub fn new() -> Self
        ensures { result ≡ numbers_of [] }
    {
        Numbers {
            count: 0,
            items: [0; 3],
        }
    }

    /// The phone numbers.
    pub fn as_slice(&self) -> &[u64]
        requires { self.now.count ≤ 3 }
        ensures { result.now ≡ list_of self.now }
    {
        &self.items[..self.count as usize]
    }

    /// Whether the list is empty.
    pub fn is_empty(&self) -> bool
        ensures { result ≡ (self.now.count == 0) }
    {
        self.count == 0
    }

    /// Adds a phone number at the end.
    pub fn push(&mut self, phone: u64)
        requires { self.old.count < 3 }
        ensures counted { self.new.count ≡ self.old.count + 1 }
        ensures appended { HasAppended phone self.old self.new }
    {
        self.items[self.count as usize] = phone;
        self.count += 1;
    }
}

impl Default for Numbers {
    ghost use Rattle.std.specs.Prelude.{◌≡◌, []};
    ghost use Rattle.tatp_model.specs.Numbers.{numbers_of};

    ghost is_default = { λ x. x ≡ numbers_of [] };

    /// The empty list.
    fn default() -> Self {
        Self::new()
    }
}
