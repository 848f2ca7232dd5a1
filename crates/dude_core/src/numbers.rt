//! Lists of numbers.

ghost use Rattle.core_events.specs.Keyed.{has};
ghost use Rattle.std.specs.Prelude.{◌≡◌, [], ◌∷◌, ◌++◌, OnOk, OnErr, IfOk};

use std::alloc::{AllocError, Global};
use std::marker::Model;

/// A list of numbers.
#[derive(Drop)]
pub struct Numbers {
    items: Vec<u64>,
}

impl Model for Numbers {
    ghost use Rattle.std.specs.Prelude.{ℕ, List};

    ghost Value = { List ℕ };

    ghost view = { λ a. a.items.items };
}

impl Numbers {
    /// No numbers.
    pub fn new(alloc: Global) -> Self
        ensures { result ≡ [] }
    {
        Numbers {
            items: Vec::new(alloc),
        }
    }

    /// All numbers, in order.
    pub fn as_slice(&self) -> &[u64]
        ensures { result.now ≡ self.now }
    {
        &self.items
    }

    /// Whether the number stands in the list.
    #[tactic(auto, using(crate::proofs::Walks::has_walk))]
    pub fn has(&self, number: u64) -> bool
        ensures { result ≡ has self.now number }
    {
        for item in &self.items {
            if *item == number {
                return true;
            }
        }
        false
    }

    /// Puts the number before the others.
    pub fn put_first(&mut self, number: u64) -> Result<(), AllocError>
        ensures ok { OnOk result (self.new ≡ number ∷ self.old) }
        ensures err { OnErr result (self.new ≡ self.old) }
    {
        self.items.insert(0, number)?;
        Ok(())
    }

    /// Puts the number behind the others.
    pub fn put_last(&mut self, number: u64) -> Result<(), AllocError>
        ensures ok { OnOk result (self.new ≡ self.old ++ number ∷ []) }
        ensures err { OnErr result (self.new ≡ self.old) }
    {
        self.items.push(number)?;
        Ok(())
    }

    /// Puts these numbers behind the others.
    pub fn put_all(&mut self, numbers: &Numbers) -> Result<(), AllocError>
        ensures ok { OnOk result (self.new ≡ self.old ++ numbers.now) }
        ensures err { OnErr result (self.new ≡ self.old) }
    {
        self.items.extend_from_slice(&numbers.items)
    }

    /// The same numbers once more.
    pub fn copy(&self, alloc: Global) -> Result<Self, AllocError>
        ensures { IfOk result (λ numbers. numbers ≡ self.now) }
    {
        let items = self.items.to_vec(alloc)?;
        Ok(Numbers { items })
    }

    /// Leaves no numbers.
    pub fn clear(&mut self)
        ensures { self.new ≡ [] }
    {
        self.items.clear();
    }
}
