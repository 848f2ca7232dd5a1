//! A lock is taken.

ghost use Rattle.core_table.specs.Steps.{BelongsTo};
ghost use Rattle.dude_base.specs.Writes.{written};
ghost use Rattle.dude_base.specs.declared.limits.TheConstants.{MAX_WRITES as MOST};
ghost use Rattle.std.specs.Prelude.{◌≡◌, ◌<◌, length, None, IfErr, OnOk, OnErr};
ghost use Rattle.stm_transactions.specs.Looks.{IsReading};
ghost use Rattle.stm_transactions.specs.Owns.{FailsToOwn, HasOwned, HasOwnedNone, OwnsHeld};
ghost use Rattle.stm_transactions.specs.Seats.{OutlastsReading, Stays};

use crate::bad_lock::BadLock;
use crate::looking::{ForOwn, look_at};
use core_table::event_table::Seat;
use core_table::slot_rule::SlotRule;
use core_table::stm::Stm;
use dude_base::write::Write;
use dude_base::write_list::WriteList;

/// Owns a lock, and notes it with its old word, where it isn't owned yet.
pub fn own_lock<S, X, K, P: SlotRule<S, X, K>>(
    stm: &Stm<S, X, K, P>,
    seat: &mut Seat<S, X>,
    held: &mut WriteList,
    lock: u64,
    thread: u64,
    snapshot: &mut u64,
    reads: &[(u64, u64)],
) -> Result<(), BadLock>
    requires seat { BelongsTo stm.now.events seat.old }
    requires slots { OutlastsReading P.fact stm.now.events }
    requires inside { lock < stm.now.events.setup.locks }
    requires reading { IsReading thread snapshot.old reads.now seat.old.me.0.view }
    requires owned { OwnsHeld held.old seat.old.me.0.view }
    requires room { written held.old lock ≡ None → length held.old < MOST }
    ensures stays { Stays stm.now.events seat.old seat.new }
    ensures ok { OnOk result
        (HasOwned lock held.old held.new snapshot.new seat.old seat.new) }
    ensures err { OnErr result
        (HasOwnedNone held.old held.new snapshot.new seat.old seat.new) }
    ensures why { IfErr result
        (FailsToOwn thread snapshot.old reads.now lock stm.now.events seat.old seat.new) }
{
    if held.find(lock).is_some() {
        return Ok(());
    }
    let _len = held.len();
    let look = look_at::<ForOwn, S, X, K, P>(stm, seat, thread, *snapshot, lock, reads)?;
    let seen = look.seen;
    *snapshot = look.snapshot;
    let found = stm.take(seat, lock, seen, thread);
    if found != seen {
        return Err(BadLock { lock, seen: found });
    }
    let Ok(()) = held.put(Write {
        at: lock,
        value: seen,
    }) else {
        unreachable!()
    };
    Ok(())
}
