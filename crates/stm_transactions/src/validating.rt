//! The reads are checked once more, behind the draw.

ghost use Rattle.core_table.specs.Steps.{BelongsTo};
ghost use Rattle.std.specs.Prelude.{OnOk, IfErr};
ghost use Rattle.stm_transactions.specs.CommitRule.{OutlastsEnding};
ghost use Rattle.stm_transactions.specs.Draws.{HasChecked, HasVoided, IsChecking};
ghost use Rattle.stm_transactions.specs.Seats.{Stays};

use crate::bad_lock::BadLock;
use crate::good_word::is_good_word;
use crate::lock_for::lock_for;
use core_table::event_table::Seat;
use core_table::slot_rule::SlotRule;
use core_table::stm::Stm;

/// Checks each lock of the reads after the draw. One that isn't good makes the number void.
pub fn validate<S, X, K, P: SlotRule<S, X, K>>(
    stm: &Stm<S, X, K, P>,
    seat: &mut Seat<S, X>,
    thread: u64,
    snapshot: u64,
    reads: &[(u64, u64)],
) -> Result<(), BadLock>
    requires seat { BelongsTo stm.now.events seat.old }
    requires slots { OutlastsEnding P.fact stm.now.events }
    requires checking { IsChecking thread snapshot reads.now seat.old.me.0.view }
    ensures stays { Stays stm.now.events seat.old seat.new }
    ensures ok { OnOk result (HasChecked reads.now stm.now.events seat.old seat.new) }
    ensures err { IfErr result
        (HasVoided thread snapshot reads.now stm.now.events seat.old seat.new) }
{
    for k in 0..reads.len() {
        let lock = lock_for(stm, reads[k].0);
        let seen = stm.check(seat, lock);
        if !is_good_word(thread, snapshot, seen) {
            return Err(BadLock { lock, seen });
        }
    }
    Ok(())
}
