//! The calls that reproduce bundles, as a list of calls.

use crate::call_list::CallList;
use pmem_trait::Call;
use redo_record::ReproduceCalls;

impl<'a> CallList for ReproduceCalls<'a> {
    ghost use Rattle.redo_record.specs.CallLists.{reproduce_list};

    ghost calls = { reproduce_list };

    fn len(&self) -> u64 {
        self.len()
    }

    fn get(&self, k: u64) -> Call {
        self.get(k)
    }
}
