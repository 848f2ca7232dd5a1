//! Scans over the writes of a number.

ghost use Rattle.core_events.specs.Keyed.{has};
ghost use Rattle.core_events.specs.Setups.{lock_of};
ghost use Rattle.dude_core.specs.Held.{AnswersEach, IsStoredUnder, IsSettledAt, IsSettledIn, WritesIn};
ghost use Rattle.dude_core.specs.Named.{Tells};
ghost use Rattle.std.specs.Prelude.{◌≡◌, true};

use crate::numbers::Numbers;
use crate::setup::Setup;
use dude_base::limits::PAGE;
use dude_base::write_list::WriteList;

/// Whether all written words under the lock are stored.
pub(crate) fn stored_under(writes: &WriteList, stored: &Numbers, z: &Setup, lock: u64) -> bool
    ensures { Tells result (IsStoredUnder z.now writes.now stored.now lock) }
{
    all_pass(writes, |at| is_stored_under(at, stored, z, lock))
}

fn is_stored_under(at: u64, stored: &Numbers, z: &Setup, lock: u64) -> bool
    ensures { Tells result (lock_of z.now at ≡ lock → has stored.now at ≡ true) }
{
    z.lock_of(at) != lock || stored.has(at)
}

/// Whether all written words of the page are stored, and the page is touched if there is one.
pub(crate) fn settled_in(writes: &WriteList, stored: &Numbers, touched: &Numbers, page: u64) -> bool
    ensures { Tells result (IsSettledIn writes.now stored.now touched.now page) }
{
    all_pass(writes, |at| is_settled(at, stored, touched, page))
}

fn is_settled(at: u64, stored: &Numbers, touched: &Numbers, page: u64) -> bool
    ensures { Tells result (IsSettledAt stored.now touched.now page at) }
{
    at / PAGE != page || (stored.has(at) && touched.has(page))
}

// Whether each word that is written passes.
fn all_pass<F: Fn(u64) -> bool>(writes: &WriteList, passes: F) -> bool
    requires { F.IsAlwaysCallable passes }
    ensures { AnswersEach (λ at b. F.post passes at b) writes.now result }
{
    for k in 0..writes.len() {
        if !passes(writes.get(k).at) {
            return false;
        }
    }
    true
}

/// Whether a word of the page is written.
pub(crate) fn writes_in(writes: &WriteList, page: u64) -> bool
    ensures { Tells result (WritesIn writes.now page) }
{
    for k in 0..writes.len() {
        if writes.get(k).at / PAGE == page {
            return true;
        }
    }
    false
}
