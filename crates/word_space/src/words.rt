//! The trait of reads and writes over an array of words.

ghost use Rattle.std.specs.Prelude.{◌≡◌, ◌<◌};
ghost use Rattle.word_space.specs.Sights.{WordsSight, IsWellFormed};
ghost use Rattle.word_space.specs.Steps.{AnswersSeen, IsSeenAt, MakesRead, MakesWrite, Shows, UsesWords, with_word};

use crate::stop::Stop;

/// Reads and writes over an array of words.
///
/// Nothing is said of the array itself, which other threads may be changing. `sight` has what was read
/// from it, and the writes, which are pending. What is read or shown is said for each array that may
/// lie below, that is, which agrees with the reads made.
pub trait Words {
    ghost sight: { Self → WordsSight };

    // The one value may become the other by calls of this trait. It says what an implementation keeps
    // beside its sight, as the array of a `Flat`. Each call ensures it from entry to exit, in the form that
    // whatever turned into the value before turns into the one after.
    ghost turns_into: { Self → Self → Type 0 };

    /// How many words there are.
    fn len(&self) -> u64
        ensures { result ≡ (sight self.now).count };

    /// Reads the word `at`. A word that was written here gives the written value, and is no read of the
    /// array.
    fn read(&mut self, at: u64) -> Result<u64, Stop>
        requires inside { at < (sight self.old).count }
        ensures uses { UsesWords sight turns_into 1 0 result self.old self.new }
        ensures reads { MakesRead sight at result self.old self.new }
        ensures value { AnswersSeen sight result self.old self.new (IsSeenAt at) };

    /// Writes the word `at`; the write is pending. `Wide` comes exactly where it would be of a 25th
    /// different word.
    fn write(&mut self, at: u64, value: u64) -> Result<(), Stop>
        requires inside { at < (sight self.old).count }
        ensures uses { UsesWords sight turns_into 0 1 result self.old self.new }
        ensures writes { MakesWrite sight at value result self.old self.new }
        ensures shown { Shows sight result self.old self.new (with_word at value) };

    ghost well_formed: { (x : Self) → IsWellFormed (sight x) };

    ghost begins: { (x : Self) → turns_into x x };

    ghost goes_on: { (x y z : Self) → turns_into x y → turns_into y z → turns_into x z };
}
