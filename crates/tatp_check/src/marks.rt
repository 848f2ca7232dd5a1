//! Which records of a pool were met.

use record_heap::pool::Pool;
use std::alloc::{AllocError, Global};

/// A mark for each record of a pool: whether it was met.
#[derive(Drop)]
pub struct Marks {
    marks: Vec<bool>,
}

impl Marks {
    ghost use Rattle.record_heap.specs.Pool.{IsRecord};
    ghost use Rattle.std.specs.Bool.{OnTrue};
    ghost use Rattle.std.specs.Prelude.{◌≡◌, ◌+◌, ◌^◌, ◌<◌, ℕ, [], length, IfOk};
    ghost use Rattle.tatp_check.specs.Marks.{AreMarked, FindsUnmarked, MarksMore, Meets};

    /// No record was met.
    pub fn new(alloc: Global, pool: &Pool) -> Result<Marks, AllocError>
        ensures { IfOk result (λ m. AreMarked pool.now [] m.marks.items) }
    {
        Ok(Marks {
            marks: vec![in alloc; false; pool.count as usize]?,
        })
    }

    /// Whether this word is a record that was not met before. From now on it was.
    pub fn meet(&mut self, pool: &Pool, at: u64) -> bool
        requires size { 0 < pool.now.size }
        requires count { length self.old.marks.items ≡ pool.now.count }
        ensures meets { Meets pool.now at self.old.marks.items self.new.marks.items result }
        ensures place { OnTrue result (IsRecord pool.now at) }
        ensures count { length self.new.marks.items ≡ pool.now.count }
        ensures fewer { OnTrue result (MarksMore self.old.marks.items self.new.marks.items) }
    {
        if !pool.has(at) {
            return false;
        }
        let index = ((at - pool.first) / pool.size) as usize;
        if self.marks[index] {
            return false;
        }
        self.marks[index] = true;
        true
    }

    /// The least record that was not met.
    pub fn first_unmet(&self, pool: &Pool) -> Option<u64>
        requires count { length self.now.marks.items ≡ pool.now.count }
        requires size { 0 < pool.now.size }
        requires fits { (at : ℕ) → IsRecord pool.now at → at < 2 ^ 64 }
        ensures { FindsUnmarked pool.now self.now.marks.items result }
    {
        for (index, met) in self.marks.iter().enumerate() {
            if !*met {
                return Some(pool.first + pool.size * index as u64);
            }
        }
        None
    }
}
