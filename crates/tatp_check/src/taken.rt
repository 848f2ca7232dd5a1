//! The records in the chains of a table, also by their keys.

ghost use Rattle.std.proofs.Props.{props};
ghost use Rattle.std.specs.BTreeMap.{IsOrdered};
ghost use Rattle.std.specs.Ordering.{nat_cmp};

use std::alloc::{AllocError, Global};
use std::collections::BTreeMap;

/// The records in the chains of a table, and the record of each key.
#[derive(Drop)]
pub struct Taken {
    records: Vec<u64>,
    by_key: BTreeMap<u64, u64>,
    ghost ordered: { IsOrdered nat_cmp by_key } by { Prim.hlevel props },
}

impl Taken {
    ghost use Rattle.std.specs.Prelude.{◌≡◌, ℕ, List, [], IfOk};
    ghost use Rattle.tatp_check.specs.Taken.{AreTaken, FindsTaken, TakesKey, records_by_key, records_taken};

    // None was met.
    pub(crate) fn new(alloc: Global) -> Taken
        ensures { (array : List ℕ) → AreTaken array [] result }
    {
        Taken {
            records: Vec::new(alloc),
            by_key: BTreeMap::new(alloc),
        }
    }

    // Takes in a record and its key, and answers whether the key is new. Where it isn't, the table is no lawful one.
    pub(crate) fn take(&mut self, at: u64, key: u64) -> Result<bool, AllocError>
        ensures { IfOk result (TakesKey at key self.old self.new) }
    {
        if self.by_key.insert(key, at)?.is_some() {
            return Ok(false);
        }
        self.records.push(at)?;
        Ok(true)
    }

    /// The records, in the order in which they were met.
    pub fn records(&self) -> &[u64]
        ensures { result.now ≡ records_taken self.now }
    {
        self.records.as_slice()
    }

    /// The record with this key.
    pub fn find(&self, key: u64) -> Option<u64>
        ensures { FindsTaken self.now key result }
    {
        self.by_key.get(&key).copied()
    }

    /// The records, in rising order of their keys.
    pub fn in_key_order(&self, alloc: Global) -> Result<Vec<u64>, AllocError>
        ensures { IfOk result (λ records. records.items ≡ records_by_key self.now) }
    {
        self.by_key.values().copied().collect(alloc)
    }
}
