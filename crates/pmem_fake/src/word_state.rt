//! One word of a medium in memory: its settled value and the later ones.

use std::alloc::{AllocError, Global};
use std::marker::Model;

/// The state of one word.
#[derive(Drop)]
pub struct WordState {
    settled: u64,
    // the values put, in order; the first `fenced` of them are settled, and the next `noted` are noted
    puts: Vec<u64>,
    fenced: usize,
    noted: usize,
}

impl Model for WordState {
    ghost use Rattle.pmem_trait.specs.Words.{Word};
    ghost use Rattle.std.specs.Prelude.{◌+◌, ◌≤◌, drop, length};

    ghost Value = { Word };

    ghost view = { λ s. record { settled = s.settled; later = drop s.fenced s.puts.items; noted = s.noted } };

    ghost invariant = { λ s. s.fenced + s.noted ≤ length s.puts.items };
}

impl WordState {
    ghost use Rattle.pmem_fake.specs.History.{picked_value};
    ghost use Rattle.pmem_trait.specs.Words.{settled_at, with_later, with_note, settle};
    ghost use Rattle.std.specs.Prelude.{◌≡◌, OnOk};

    /// A word with no later value.
    pub fn new(alloc: Global, value: u64) -> WordState
        ensures { result ≡ settled_at value }
    {
        WordState {
            settled: value,
            puts: Vec::new(alloc),
            fenced: 0,
            noted: 0,
        }
    }

    /// Adds a later value.
    pub fn put(&mut self, value: u64) -> Result<(), AllocError>
        ensures { OnOk result (self.new ≡ with_later value self.old) }
    {
        self.puts.push(value)?;
        Ok(())
    }

    /// Notes the value that the word holds.
    pub fn note(&mut self)
        ensures { self.new ≡ with_note self.old }
    {
        self.noted = self.puts.len() - self.fenced;
    }

    /// Settles the noted value.
    pub fn fence(&mut self)
        ensures { self.new ≡ settle self.old }
    {
        if self.noted > 0 {
            self.settled = self.puts[self.fenced + self.noted - 1];
            self.fenced += self.noted;
            self.noted = 0;
        }
    }

    /// The value that a pick takes.
    pub fn pick(&self, pick: u64) -> u64
        ensures { result ≡ picked_value self.now pick }
    {
        let later = self.puts.len() - self.fenced;
        let chosen = (pick % (later as u64 + 1)) as usize;
        if chosen == 0 {
            self.settled
        } else {
            self.puts[self.fenced + chosen - 1]
        }
    }
}
