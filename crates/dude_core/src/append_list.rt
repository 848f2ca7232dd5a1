//! The calls that append a bundle, as a list of calls.

use crate::call_list::CallList;
use pmem_trait::Call;
use redo_record::AppendCalls;

impl CallList for AppendCalls {
    ghost use Rattle.redo_record.specs.CallLists.{append_list};

    ghost calls = { append_list };

    fn len(&self) -> u64 {
        self.len()
    }

    fn get(&self, k: u64) -> Call {
        self.get(k)
    }
}
