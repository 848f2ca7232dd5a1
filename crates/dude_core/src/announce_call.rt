//! The call that announces a number, as a list of calls.

use crate::call_list::CallList;
use pmem_trait::Call;

/// The call that announces a number.
#[derive(Clone, Copy)]
pub struct AnnounceCall {
    /// The number.
    pub number: u64,
}

impl CallList for AnnounceCall {
    ghost use Rattle.redo_record.specs.BackCalls.{announce_calls};

    ghost calls = { λ a. announce_calls a.number };

    fn len(&self) -> u64 {
        1
    }

    fn get(&self, _: u64) -> Call {
        Call::Tell(self.number)
    }
}
