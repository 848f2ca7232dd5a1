//! The lock of a word.

ghost use Rattle.core_events.specs.Setups.{lock_of};
ghost use Rattle.std.specs.Prelude.{◌≡◌, ◌<◌};

use core_table::slot_rule::SlotRule;
use core_table::stm::Stm;
use dude_base::limits::{DEFAULT_LOCKS, MAX_LOCKS};

/// The lock of the word `at`. The default count of locks and the largest are cases of their own, since by a constant nothing is
/// divided.
pub fn lock_for<S, X, K, P: SlotRule<S, X, K>>(stm: &Stm<S, X, K, P>, at: u64) -> u64
    requires { 0 < stm.now.events.setup.locks }
    ensures { result ≡ lock_of stm.now.events.setup at }
{
    match stm.events.locks() {
        DEFAULT_LOCKS => at % DEFAULT_LOCKS,
        MAX_LOCKS => at % MAX_LOCKS,
        locks => at % locks,
    }
}
