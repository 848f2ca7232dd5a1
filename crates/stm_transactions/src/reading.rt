//! A word is read.

ghost use Rattle.core_table.specs.Steps.{BelongsTo};
ghost use Rattle.dude_base.specs.declared.limits.TheConstants.{PAGE as PAGE_WORDS};
ghost use Rattle.std.specs.Prelude.{◌*◌, ◌<◌, IfOk, IfErr, OnErr};
ghost use Rattle.stm_transactions.specs.Looks.{IsReading};
ghost use Rattle.stm_transactions.specs.Pins.{IsPinningOne};
ghost use Rattle.stm_transactions.specs.Reads.{HasRead, HasReadNone, StopsRead};
ghost use Rattle.stm_transactions.specs.Seats.{OutlastsReading, Stays};

use crate::bad_lock::BadLock;
use crate::lock_for::lock_for;
use crate::looking::{ForRead, look_at};
use crate::pages::reach;
use crate::pinned::Pinned;
use core_table::event_table::Seat;
use core_table::slot_rule::SlotRule;
use core_table::stm::Stm;
use dude_base::limits::PAGE;
use word_space::stop::Stop;

/// Reads a word: its page is pinned, and its lock looked at before the load and behind it. The snapshot is extended where the
/// lock's version is over it.
pub fn read_word<S, X, K, P: SlotRule<S, X, K>>(
    stm: &Stm<S, X, K, P>,
    seat: &mut Seat<S, X>,
    thread: u64,
    snapshot: &mut u64,
    at: u64,
    reads: &[(u64, u64)],
    pinned: &mut Option<Pinned>,
) -> Result<u64, Stop>
    requires seat { BelongsTo stm.now.events seat.old }
    requires slots { OutlastsReading P.fact stm.now.events }
    requires inside { at < stm.now.events.setup.pages * PAGE_WORDS }
    requires pinning { IsPinningOne pinned.old seat.old.me.0.view }
    requires reading { IsReading thread snapshot.old reads.now seat.old.me.0.view }
    ensures stays { Stays stm.now.events seat.old seat.new }
    ensures ok { IfOk result
        (HasRead reads.now at snapshot.new pinned.new seat.old seat.new) }
    ensures err { OnErr result
        (HasReadNone reads.now snapshot.new pinned.new seat.old seat.new) }
    ensures why { IfErr result
        (StopsRead thread snapshot.old reads.now at stm.now.events seat.old seat.new) }
{
    let lock = lock_for(stm, at);
    let frame = reach(stm, seat, at / PAGE, pinned)?;
    let look = match look_at::<ForRead, S, X, K, P>(stm, seat, thread, *snapshot, lock, reads) {
        Ok(look) => look,
        Err(BadLock { lock, seen }) => return Err(Stop::Conflict { lock, seen }),
    };
    let seen = look.seen;
    *snapshot = look.snapshot;
    let value = stm.load(seat, at, frame);
    let again = stm.check(seat, lock);
    if again != seen {
        return Err(Stop::Conflict { lock, seen: again });
    }
    Ok(value)
}
