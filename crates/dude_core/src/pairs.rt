//! Lists of keys with values.

ghost use Rattle.core_events.specs.Conditions.{Keeps, IsFilled};
ghost use Rattle.core_events.specs.Events.{unfilled, refilled, all_checked, first_lock};
ghost use Rattle.core_events.specs.Keyed.{find, without, has};
ghost use Rattle.core_events.specs.Setups.{lock_of, page_of};
ghost use Rattle.dude_core.specs.Named.{Tells};
ghost use Rattle.std.specs.Prelude.{◌≡◌, ◌≤◌, ◌^◌, ℕ, true, All, map, ◌↔◌, [], ◌∷◌, ◌++◌, IsTrue, OnOk, OnErr, IfOk};

use crate::numbers::Numbers;
use crate::setup::Setup;
use dude_base::limits::PAGE;
use std::alloc::{AllocError, Global};
use std::marker::Model;

/// A list of keys with values.
#[derive(Drop)]
pub struct Pairs {
    items: Vec<(u64, u64)>,
}

impl Model for Pairs {
    ghost use Rattle.std.specs.Prelude.{ℕ, List};

    ghost Value = { List (ℕ × ℕ) };

    ghost view = { λ a. a.items.items };
}

impl Pairs {
    /// No pairs.
    pub fn new(alloc: Global) -> Self
        ensures { result ≡ [] }
    {
        Pairs {
            items: Vec::new(alloc),
        }
    }

    /// The same pairs once more.
    pub fn copy(&self, alloc: Global) -> Result<Self, AllocError>
        ensures { IfOk result (λ pairs. pairs ≡ self.now) }
    {
        let items = self.items.to_vec(alloc)?;
        Ok(Pairs { items })
    }

    /// All pairs, in order.
    pub fn as_slice(&self) -> &[(u64, u64)]
        ensures { result.now ≡ self.now }
    {
        &self.items
    }

    /// Whether there are no pairs.
    pub fn is_empty(&self) -> bool
        ensures { IsTrue result ↔ (self.now ≡ []) }
    {
        self.items.is_empty()
    }

    /// The value under the key.
    #[tactic(auto, using(crate::proofs::Walks::find_walk))]
    pub fn find(&self, key: u64) -> Option<u64>
        ensures { result ≡ find self.now key }
    {
        for item in &self.items {
            if item.0 == key {
                return Some(item.1);
            }
        }
        None
    }

    /// Whether there is a pair with this key.
    pub fn has_key(&self, key: u64) -> bool
        ensures { Tells result (Keeps self.now key) }
    {
        match self.find(key) {
            Some(_) => true,
            None => false,
        }
    }

    /// Whether this pair stands in the list.
    pub fn has(&self, key: u64, value: u64) -> bool
        ensures { Tells result (IsFilled self.now key value) }
    {
        for item in &self.items {
            if item.0 == key && item.1 == value {
                return true;
            }
        }
        false
    }

    /// Whether the lock of each home word that is a key stands among these locks.
    pub fn all_checked(&self, z: &Setup, locks: &Numbers) -> bool
        ensures { result ≡ all_checked z.now locks.now self.now }
    {
        for item in &self.items {
            if !locks.has(z.lock_of(item.0)) {
                return false;
            }
        }
        true
    }

    /// Whether each home word that is a key has its lock among these.
    pub fn all_found(&self, z: &Setup, locks: &Numbers) -> bool
        ensures { Tells result (All (λ r. has locks.now (lock_of z.now r.0) ≡ true) self.now) }
    {
        self.all_checked(z, locks)
    }

    /// Whether each word of the page is a key with this value.
    pub fn has_page(&self, page: u64, value: u64) -> bool
        requires { page ≤ 2 ^ 32 }
        ensures { Tells result ((i : ℕ) → page_of i ≡ page → IsFilled self.now i value) }
    {
        for offset in 0..PAGE {
            if !self.has(page * PAGE + offset, value) {
                return false;
            }
        }
        true
    }

    /// Whether the lock is that of a home word that is a key.
    pub fn has_lock(&self, z: &Setup, lock: u64) -> bool
        ensures { result ≡ has (map (λ r. lock_of z.now r.0) self.now) lock }
    {
        for item in &self.items {
            if z.lock_of(item.0) == lock {
                return true;
            }
        }
        false
    }

    /// The first key; 0 where there are no pairs.
    pub fn first_key(&self) -> u64
        ensures { result ≡ first_lock self.now }
    {
        if self.items.is_empty() {
            0
        } else {
            self.items[0].0
        }
    }

    /// Puts the pair before the others.
    pub fn put_first(&mut self, key: u64, value: u64) -> Result<(), AllocError>
        ensures ok { OnOk result (self.new ≡ (key, value) ∷ self.old) }
        ensures err { OnErr result (self.new ≡ self.old) }
    {
        self.items.insert(0, (key, value))?;
        Ok(())
    }

    /// Puts the pair behind the others.
    pub fn put_last(&mut self, key: u64, value: u64) -> Result<(), AllocError>
        ensures ok { OnOk result (self.new ≡ self.old ++ (key, value) ∷ []) }
        ensures err { OnErr result (self.new ≡ self.old) }
    {
        self.items.push((key, value))?;
        Ok(())
    }

    /// Leaves no pairs.
    pub fn clear(&mut self)
        ensures { self.new ≡ [] }
    {
        self.items.clear();
    }

    /// Leaves no pair with this key.
    pub fn remove(&mut self, key: u64)
        ensures { self.new ≡ without self.old key }
    {
        self.items.retain(|item| item.0 != key);
    }

    /// Leaves no pair whose key is a home word of this page.
    pub fn remove_page(&mut self, page: u64)
        ensures { self.new ≡ unfilled page self.old }
    {
        self.items.retain(|item| item.0 / PAGE != page);
    }

    /// Leaves no pair whose key is a home word of another page, and whose value is this frame.
    pub fn remove_others(&mut self, page: u64, frame: u64)
        ensures { self.new ≡ refilled page frame self.old }
    {
        self.items
            .retain(|item| item.1 != frame || item.0 / PAGE == page);
    }

    /// Puts a home word of the page with its frame before the others, and leaves none that other
    /// pages have in the frame.
    pub fn fill(&mut self, page: u64, frame: u64, at: u64) -> Result<(), AllocError>
        requires { page_of at ≡ page }
        ensures ok { OnOk result (self.new ≡ (at, frame) ∷ refilled page frame self.old) }
        ensures err { OnErr result (self.new ≡ self.old) }
    {
        self.put_first(at, frame)?;
        self.remove_others(page, frame);
        Ok(())
    }
}
