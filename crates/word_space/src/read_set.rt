//! The reads of a transaction, in their order.

ghost use Rattle.std.specs.Prelude.{◌≡◌, ◌<◌, ◌≤◌, [], ◌∷◌, ◌++◌, length, slice_get, OnOk, OnErr};
ghost use Rattle.word_space.specs.ReadSet.{HasRoom};

use std::alloc::{AllocError, Global};
use std::marker::Model;

/// The reads of a transaction in their order, each a word's number and the value that was found there.
#[derive(Drop)]
pub struct ReadSet {
    items: Vec<(u64, u64)>,
}

impl Model for ReadSet {
    ghost use Rattle.std.specs.Prelude.{vec_capacity};
    ghost use Rattle.word_space.specs.ReadSet.{NotedReads};

    ghost Value = { NotedReads };

    ghost view = { λ a. record { reads = a.items.items; room = vec_capacity a.items } };
}

impl ReadSet {
    /// No reads. It takes no memory yet.
    pub fn new(alloc: Global) -> Self
        ensures { result ≡ record { reads = []; room = 0 } }
    {
        ReadSet {
            items: Vec::new(alloc),
        }
    }

    /// Takes the memory of the next read, where there is none yet.
    pub fn room(&mut self) -> Result<(), AllocError>
        ensures ok { OnOk result (HasRoom self.new) }
        ensures full { OnErr result (self.old.room ≤ length self.old.reads) }
        ensures reads { self.new.reads ≡ self.old.reads }
        ensures kept { self.old.room ≤ self.new.room }
    {
        self.items.reserve(1)?;
        Ok(())
    }

    /// Notes a read behind the others, also one of a word that was read before. It takes no memory.
    pub fn add(&mut self, at: u64, value: u64)
        requires room { HasRoom self.old }
        ensures { self.new ≡ record self.old { reads = self.old.reads ++ (at, value) ∷ [] } }
    {
        self.items.push_reserved((at, value));
    }

    /// How many reads were noted; each read of the same word counts.
    pub fn len(&self) -> u64
        ensures { result ≡ length self.now.reads }
    {
        self.items.len() as u64
    }

    /// The read at index `k`, counted from 0.
    pub fn get(&self, k: u64) -> (u64, u64)
        requires { k < length self.now.reads }
        ensures { slice_get self.now.reads k ≡ Some result }
    {
        let items = &self.items;
        items[k as usize]
    }

    /// Forgets the reads, and keeps the memory for later ones.
    pub fn clear(&mut self)
        ensures { self.new ≡ record self.old { reads = [] } }
    {
        self.items.clear();
    }
}
