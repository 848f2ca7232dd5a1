//! Which call of the back a call on the medium goes on with, by the store alone.

ghost use Rattle.dude_core.specs.CallFits.{IsApart};
ghost use Rattle.dude_core.specs.Named.{Tells};
ghost use Rattle.dude_core.specs.NextCalls.{ReadsOn, Announces};
ghost use Rattle.redo_record.specs.BackCalls.{announce_calls, read_page_calls};
ghost use Rattle.redo_record.specs.Waiting.{AreDisjoint, IsContiguousEnd};
ghost use Rattle.std.specs.Prelude.{◌≡◌, ◌≢◌, ◌<◌, ℕ, IfSome, IfNone};

use crate::fit::ends_by;
use crate::leading::{bundle_behind, leads_to};
use crate::page_reads::PageReads;
use crate::store::Store;
use pmem_trait::Call;

impl Store {
    /// The page with whose reads the call goes on, and whether it is their last one.
    pub(crate) fn next_page(&self, call: Call) -> Option<(u64, bool)>
        ensures some { IfSome result (λ r. ReadsOn self.now call r.0 r.1) }
        ensures none { IfNone result ((p : ℕ) → p < self.now.sizes.pages
            → IsApart (read_page_calls self.now.sizes p) self.now.calls call) }
    {
        let place = self.place();
        let calls = self.calls();
        for page in 0..place.sizes().pages {
            let reads = PageReads::of(&place, page);
            if let Some(is_last) = ends_by(&reads, calls, call) {
                return Some((page, is_last));
            }
        }
        None
    }

    /// The number that the call announces.
    pub(crate) fn next_told(&self, call: Call) -> Option<u64>
        requires { AreDisjoint self.now.waiting }
        ensures some { IfSome result (Announces self.now call) }
        ensures none { IfNone result
            ((n : ℕ) → IsContiguousEnd self.now.waiting self.now.reproduced n
            → IsApart (announce_calls n) self.now.calls call) }
    {
        let Some(number) = told_by(call) else {
            return None;
        };
        if self.is_at_rest() && self.ends_at(number) {
            Some(number)
        } else {
            None
        }
    }

    // Whether the number is the contiguous end.
    fn ends_at(&self, number: u64) -> bool
        requires { AreDisjoint self.now.waiting }
        ensures { Tells result (IsContiguousEnd self.now.waiting self.now.reproduced number) }
    {
        let waiting = self.waiting();
        leads_to(waiting, self.reproduced(), number) && bundle_behind(waiting, number).is_none()
    }
}

// The number that the call tells.
fn told_by(call: Call) -> Option<u64>
    ensures some { IfSome result (λ n. call ≡ Call.Tell n) }
    ensures none { IfNone result ((n : ℕ) → call ≢ Call.Tell n) }
{
    match call {
        Call::Tell(number) => Some(number),
        Call::Read(_) | Call::Put { .. } | Call::Flush(_) | Call::Fence => None,
    }
}
