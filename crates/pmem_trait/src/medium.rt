//! The trait of persistent memory.

ghost use Rattle.pmem_trait.specs.Sights.{Sight, OneCall, ReadGives};
ghost use Rattle.pmem_trait.specs.declared.call.Call.TheVariants.{Read, Put, Flush, Fence, Tell};
ghost use Rattle.std.specs.Prelude.{◌≡◌, ◌+◌, ◌*◌, ◌^◌, ◌<◌, ◌≤◌, is_ok, IfOk};

use crate::failed::Failed;

/// Persistent memory of a fixed number of words.
///
/// A word has a settled value and later values. A put adds a later value, a flush notes the values that the words of
/// a line hold, and a fence makes the noted values settled. A crash leaves of each word, by itself, its settled value
/// or one of the later ones. Each call but `len` and `now` is one moment, whether it fails or not. A failed call has
/// done nothing at a word or what it would have done.
pub trait Medium {
    /// The length, the moment and the faults; and, where these are visible, the state at each moment and the calls made.
    ghost sight: { Self → Sight };

    /// How many words there are.
    fn len(&self) -> u64
        ensures { result ≡ (sight self.now).len };

    /// The moment: how many calls were made so far.
    fn now(&self) -> u64
        ensures { result ≡ (sight self.now).now };

    /// The last value put in this word, or the settled one.
    fn read(&mut self, at: u64) -> Result<u64, Failed>
        requires { at < (sight self.old).len }
        ensures one_call { OneCall (Read at) (is_ok result) (sight self.old) (sight self.new) }
        ensures value { IfOk result (ReadGives (sight self.old) at) };

    /// Puts a value in this word.
    fn put(&mut self, at: u64, value: u64) -> Result<(), Failed>
        requires { at < (sight self.old).len }
        ensures { OneCall (Put at value) (is_ok result) (sight self.old) (sight self.new) };

    /// Notes the values of the eight words of a line, the first of which is word `8 * line`. A second flush of the line
    /// notes anew.
    fn flush(&mut self, line: u64) -> Result<(), Failed>
        requires { 8 * line + 8 ≤ (sight self.old).len }
        ensures { OneCall (Flush line) (is_ok result) (sight self.old) (sight self.new) };

    /// Makes the noted values durable.
    fn fence(&mut self) -> Result<(), Failed>
        ensures { OneCall Fence (is_ok result) (sight self.old) (sight self.new) };

    /// Tells that everything up to a number is durable. The caller sees to it that it is.
    fn tell(&mut self, number: u64) -> Result<(), Failed>
        ensures { OneCall (Tell number) (is_ok result) (sight self.old) (sight self.new) };

    /// Length and moment are numbers of 64 bits.
    ghost fits: { (medium : Self) → ((sight medium).len < 2 ^ 64) × ((sight medium).now < 2 ^ 64) };
}
