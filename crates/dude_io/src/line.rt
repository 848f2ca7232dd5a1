//! A line as it stood when it was flushed, and its bytes.

ghost use Rattle.std.specs.Int.{w64, to_le_bytes};
ghost use Rattle.std.specs.Prelude.{◌≡◌, ◌*◌, ◌^◌, ◌<◌, length, flat_map};

/// Words of a line.
pub const WORDS: usize = 8;

/// Bytes of a line.
pub const BYTES: usize = 64;

/// A line as it stood when it was flushed.
#[derive(Clone, Copy)]
pub struct Line {
    pub number: u64,
    pub words: [u64; WORDS],
    ghost small: { number < 2 ^ 58 },
}

impl Line {
    ghost use Rattle.dude_io.specs.Line.{IsLineOf, line_bytes};
    ghost use Rattle.std.specs.Prelude.{◌≡◌, ◌+◌, ◌*◌, ◌^◌, ◌<◌, ◌≤◌, length};

    /// The line of this number.
    pub(crate) fn of(words: &[u64], number: u64) -> Line
        requires inside { 8 * number + 8 ≤ length words.now }
        requires small { length words.now < 2 ^ 61 }
        ensures { IsLineOf words.now number result }
    {
        let start = WORDS * number as usize;
        let mut held = [0; WORDS];
        held.copy_from_slice(&words[start..start + WORDS]);
        Line {
            number,
            words: held,
        }
    }

    /// Writes the words as bytes.
    pub(crate) fn store(&self, into: &mut [u8])
        requires { length into.old ≡ 64 }
        ensures { into.new ≡ line_bytes self.now }
    {
        store_words(&self.words, into);
    }
}

/// Writes the words as bytes, each with its lowest byte first.
pub(crate) fn store_words(words: &[u64], into: &mut [u8])
    requires { length into.old ≡ 8 * length words.now }
    ensures { into.new ≡ flat_map (to_le_bytes w64) words.now }
{
    for (k, word) in words.iter().enumerate() {
        into[8 * k..8 * k + 8].copy_from_slice(&word.to_le_bytes());
    }
}
