//! The calls made on a medium in memory, and which of them fail.

ghost use Rattle.std.specs.Prelude.{◌≡◌, ◌^◌, ◌<◌, ◌≤◌, min, length, vec_capacity};

use pmem_trait::{Call, Failed, Made};
use std::alloc::{AllocError, Global};

/// The calls made, with room for as many as are allowed, and which of them fail. Calls are counted from 1.
#[derive(Drop)]
pub struct CallHistory {
    pub calls: Vec<Made>,
    pub now: u64,
    pub faults: u64,
    pub budget: u64,
    pub fail: Vec<u64>,
    /// Whether a call that is to fail has its effect first.
    pub late: bool,
    ghost as_many: { length calls.items ≡ min now budget },
    ghost room: { budget ≤ vec_capacity calls },
    ghost small: { budget ≤ 10000000 },
    ghost numbers_fit: { (now < 2 ^ 64) × (faults < 2 ^ 64) },
}

impl CallHistory {
    ghost use Rattle.pmem_fake.specs.CallHistory.{Entered, has_next_effect};
    ghost use Rattle.std.specs.Prelude.{◌≡◌, ◌≤◌, is_ok, IfOk, []};

    /// No call so far. Calls over `budget` fail, and those whose count is in `fail`; these have their effect first
    /// where `late` says so.
    pub fn new(
        alloc: Global,
        budget: u64,
        fail: Vec<u64>,
        late: bool,
    ) -> Result<CallHistory, AllocError>
        requires { budget ≤ 10000000 }
        ensures calls { IfOk result (λ history. history.calls.items ≡ []) }
        ensures now { IfOk result (λ history. history.now ≡ 0) }
        ensures faults { IfOk result (λ history. history.faults ≡ 0) }
        ensures budget { IfOk result (λ history. history.budget ≡ budget) }
        ensures fail { IfOk result (λ history. history.fail ≡ fail) }
        ensures late { IfOk result (λ history. history.late ≡ late) }
    {
        Ok(CallHistory {
            calls: Vec::with_capacity(alloc, budget as usize)?,
            now: 0,
            faults: 0,
            budget,
            fail,
            late,
        })
    }

    /// Whether the next call has its effect.
    pub fn is_next_effective(&self) -> bool
        ensures { result ≡ has_next_effect self.entry.now }
    {
        self.now < self.budget && (self.late || !self.fail.contains(&(self.now + 1)))
    }

    /// Notes a call, and answers whether it succeeds.
    pub fn enter(&mut self, call: Call) -> Result<(), Failed>
        ensures { Entered call (is_ok result) self.old self.new }
    {
        if self.now >= self.budget {
            self.now = self.now.saturating_add(1);
            self.faults = self.faults.saturating_add(1);
            return Err(Failed);
        }
        let count = self.now + 1;
        let failed = self.fail.contains(&count);
        self.calls.push_reserved(Made { call, failed });
        self.now = count;
        if failed {
            self.faults = self.faults.saturating_add(1);
            return Err(Failed);
        }
        Ok(())
    }
}
