//! Lists of writes of different words, which take no memory.

ghost use Rattle.dude_base.specs.Writes.{written, put_write, overwritten, IsIndexOf, IsTooMany, AreWrites};
ghost use Rattle.std.specs.List.{HoldsAt};
ghost use Rattle.std.specs.Prelude.{◌≡◌, ◌≢◌, ◌<◌, ◌↔◌, [], ◌∷◌, ◌++◌, length, slice_get, slice_set, All, OnOk, OnErr, IsErr, IfSome, IfNone};

use crate::limits::{MAX_BUNDLE_WRITES, MAX_WRITES};
use crate::wide::Wide;
use crate::write::Write;
use std::marker::Model;

/// At most `MOST` writes of different words, in the order in which these words were first
/// written. It takes no memory: the writes stand in an array of their own.
#[derive(Drop)]
pub struct Writes<const MOST: usize> {
    slots: [Write; MOST],
    len: u64,
}

const TRANSACTION_WRITES: usize = MAX_WRITES as usize;

const BUNDLE_WRITES: usize = MAX_BUNDLE_WRITES as usize;

/// The writes of one transaction.
pub type WriteList = Writes<TRANSACTION_WRITES>;

/// The writes of a bundle.
pub type BundleWrites = Writes<BUNDLE_WRITES>;

impl<const MOST: usize> Model for Writes<MOST> {
    ghost use Rattle.dude_base.specs.declared.write.Write.{Write};
    ghost use Rattle.std.specs.Prelude.{List, take};

    ghost Value = { List Write };

    ghost use Rattle.dude_base.specs.WriteList.{IsKept};

    ghost view = { λ a. take a.len a.slots };

    ghost invariant = { λ a. IsKept MOST a.len a.slots };
}

impl<const MOST: usize> Writes<MOST> {
    /// No writes yet.
    pub fn new() -> Self
        ensures { result ≡ [] }
    {
        Writes {
            slots: [Write { at: 0, value: 0 }; MOST],
            len: 0,
        }
    }

    /// The same writes once more. It takes no memory either.
    pub fn copy(&self) -> Self
        ensures { result ≡ self.now }
    {
        Writes {
            slots: self.slots,
            len: self.len,
        }
    }

    /// How many different words are written.
    pub fn len(&self) -> u64
        ensures len { result ≡ length self.now }
        ensures writes { AreWrites MOST self.now }
    {
        let slots = &self.slots;
        let _ = slots.len();
        self.len
    }

    /// The write at index `k`, counted from 0.
    pub fn get(&self, k: u64) -> Write
        requires { k < length self.now }
        ensures { slice_get self.now k ≡ Some result }
    {
        let slots = &self.slots;
        slots[k as usize]
    }

    /// What the word `at` is to hold, or `None` where it isn't written.
    pub fn find(&self, at: u64) -> Option<u64>
        ensures { result ≡ written self.now at }
    {
        match self.index_of(at) {
            Some(k) => Some(self.get(k).value),
            None => None,
        }
    }

    /// Adds a write; it replaces the one of the same word, or comes last.
    pub fn put(&mut self, w: Write) -> Result<(), Wide>
        ensures ok { OnOk result (self.new ≡ put_write self.old w) }
        ensures err { OnErr result (self.new ≡ self.old) }
        ensures wide { IsErr result ↔ IsTooMany MOST self.old w.at }
    {
        match self.index_of(w.at) {
            Some(k) => self.replace(k, w),
            None if self.len() < MOST as u64 => self.append(w),
            None => return Err(Wide),
        }
        Ok(())
    }

    /// Overwrites an array by these writes.
    pub fn apply_to(&self, words: &mut [u64])
        requires inside { All (λ w. w.at < length words.old) self.now }
        ensures { words.new ≡ overwritten self.now words.old }
    {
        for k in 0..self.len() {
            let w = self.get(k);
            words[w.at as usize] = w.value;
        }
    }

    /// Drops the writes. Their slots stay as they are, which costs less than new ones.
    pub fn clear(&mut self)
        ensures { self.new ≡ [] }
    {
        let slots = &self.slots;
        let _ = slots.len();
        self.len = 0;
    }

    fn index_of(&self, at: u64) -> Option<u64>
        ensures some { IfSome result (IsIndexOf self.now at) }
        ensures none { IfNone result (All (λ w. w.at ≢ at) self.now) }
        ensures writes { AreWrites MOST self.now }
    {
        for k in 0..self.len {
            if self.slots[k as usize].at == at {
                return Some(k);
            }
        }
        None
    }

    fn replace(&mut self, k: u64, w: Write)
        requires inside { k < length self.old }
        requires same_word { HoldsAt (λ v. v.at ≡ w.at) self.old k }
        ensures { self.new ≡ slice_set self.old k w }
    {
        let slots = &mut self.slots;
        slots[k as usize] = w;
    }

    pub(crate) fn append(&mut self, w: Write)
        requires room { length self.old < MOST }
        requires new_word { All (λ v. v.at ≢ w.at) self.old }
        ensures { self.new ≡ self.old ++ w ∷ [] }
    {
        self.slots[self.len as usize] = w;
        self.len += 1;
    }
}
