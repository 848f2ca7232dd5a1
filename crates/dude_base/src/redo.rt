//! The redo record of a transaction.

ghost use Rattle.dude_base.specs.Records.{with_write};
ghost use Rattle.dude_base.specs.Writes.{overwritten, IsWide, IsWriteList};
ghost use Rattle.std.specs.Prelude.{◌≡◌, ◌<◌, ◌↔◌, [], length, slice_get, All, OnOk, OnErr, IsErr};

use crate::wide::Wide;
use crate::write::Write;
use crate::write_list::WriteList;
use std::marker::Model;

/// The redo record of a transaction: its number, and at most `MAX_WRITES` writes of different words.
#[derive(Drop)]
pub struct Redo {
    number: u64,
    writes: WriteList,
}

impl Model for Redo {
    ghost use Rattle.dude_base.specs.Records.{RedoRecord};

    ghost Value = { RedoRecord };

    ghost view = { λ r. record { number = r.number; writes = r.writes } };
}

impl Redo {
    /// The record of this number, with no writes yet.
    pub fn new(number: u64) -> Self
        ensures { result ≡ record { number = number; writes = [] } }
    {
        Redo {
            number,
            writes: WriteList::new(),
        }
    }

    /// The record of this number with these writes.
    pub fn of(number: u64, writes: WriteList) -> Self
        ensures { result ≡ record { number = number; writes = writes } }
    {
        Redo { number, writes }
    }

    /// The same record once more. It takes no memory.
    pub fn copy(&self) -> Self
        ensures { result ≡ self.now }
    {
        Redo {
            number: self.number,
            writes: self.writes.copy(),
        }
    }

    /// The number of the transaction.
    pub fn number(&self) -> u64
        ensures { result ≡ self.now.number }
    {
        self.number
    }

    /// How many different words are written.
    pub fn len(&self) -> u64
        ensures len { result ≡ length self.now.writes }
        ensures writes { IsWriteList self.now.writes }
    {
        self.writes.len()
    }

    /// The write at index `k`, counted from 0.
    pub fn write_at(&self, k: u64) -> Write
        requires { k < length self.now.writes }
        ensures { slice_get self.now.writes k ≡ Some result }
    {
        self.writes.get(k)
    }

    /// Adds a write; it replaces the one of the same word, or comes last.
    pub fn push(&mut self, w: Write) -> Result<(), Wide>
        ensures ok { OnOk result (self.new ≡ with_write self.old w) }
        ensures err { OnErr result (self.new ≡ self.old) }
        ensures wide { IsErr result ↔ IsWide self.old.writes w.at }
    {
        self.writes.put(w)
    }

    /// Overwrites an array by the writes of this record.
    pub fn apply_to(&self, words: &mut [u64])
        requires inside { All (λ w. w.at < length words.old) self.now.writes }
        ensures { words.new ≡ overwritten self.now.writes words.old }
    {
        self.writes.apply_to(words)
    }
}
