//! A sink in memory, of which chosen calls fail.

ghost use Rattle.std.specs.Prelude.{◌≡◌, ◌≤◌, ◌+◌, ◌++◌, length, vec_len, vec_capacity};

use crate::Sink;
use crate::fail_plan::FailPlan;
use pmem_trait::Failed;
use std::alloc::{AllocError, Global};

/// A sink in memory, of which chosen calls fail. It has room for so many bytes and takes no memory after it is made.
#[derive(Drop)]
pub struct MemSink {
    taken: Vec<u8>,
    room: u64,
    plan: FailPlan,
    ghost within: { vec_len taken ≤ room },
    ghost reserved: { room ≤ vec_capacity taken },
}

impl MemSink {
    ghost use Rattle.dude_io.specs.MemSink.{IsNewSink, sink_sight};
    ghost use Rattle.std.specs.Prelude.{◌≡◌, ◌≤◌, IfOk};

    /// A sink with room for `room` bytes, that takes at most `chunk` in a call. Calls are counted from 1, and those
    /// in `fail` fail.
    pub fn new(alloc: Global, room: u64, chunk: u64, fail: Vec<u64>) -> Result<MemSink, AllocError>
        requires { 1 ≤ chunk }
        ensures { IfOk result (IsNewSink room chunk fail.items) }
    {
        let taken = Vec::with_capacity(alloc, room as usize)?;
        Ok(MemSink {
            taken,
            room,
            plan: FailPlan::new(fail, chunk),
        })
    }

    /// What was taken.
    pub fn bytes(&self) -> &[u8]
        ensures { result.now ≡ (sink_sight self.now).taken }
    {
        self.taken.as_slice()
    }
}

impl Sink for MemSink {
    ghost use Rattle.dude_io.specs.FailPlan.{CountsCall};
    ghost use Rattle.dude_io.specs.MemSink.{sink_sight, sink_plan, write_fails, most_taken};
    ghost use Rattle.dude_io.specs.Sink.{WritesSink};
    ghost use Rattle.std.specs.Prelude.{◌≡◌, ◌<◌, length, is_ok, is_err, IfOk};

    ghost sight = { sink_sight };

    fn write(&mut self, piece: &[u8]) -> Result<u64, Failed>
        requires { 0 < length piece.now }
        ensures writes { WritesSink piece.now result (sink_sight self.old) (sink_sight self.new) }
        ensures fails { is_err result ≡ write_fails self.old }
        ensures most { IfOk result (λ n. n ≡ most_taken self.old piece.now) }
        ensures counts { CountsCall (is_ok result) (sink_plan self.old) (sink_plan self.new) }
    {
        if self.plan.fails_next() {
            return Err(Failed);
        }
        let left = self.room - self.taken.len() as u64;
        if left == 0 {
            self.plan.count_fault();
            return Err(Failed);
        }
        let takes = self.plan.chunk.min(left.min(piece.len() as u64));
        append(&mut self.taken, &piece[..takes as usize]);
        Ok(takes)
    }
}

/// Appends bytes for which there is room.
fn append(taken: &mut Vec<u8>, bytes: &[u8])
    requires { vec_len taken.old + length bytes.now ≤ vec_capacity taken.old }
    ensures items { taken.new.items ≡ taken.old.items ++ bytes.now }
    ensures len { vec_len taken.new ≡ vec_len taken.old + length bytes.now }
    ensures capacity { vec_capacity taken.new ≡ vec_capacity taken.old }
{
    for byte in bytes {
        taken.push_reserved(*byte);
    }
}
