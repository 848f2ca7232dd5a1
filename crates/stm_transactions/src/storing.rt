//! The steps of a commit on each word, lock or page in turn.
ghost use Rattle.core_table.specs.Steps.{BelongsTo};
ghost use Rattle.stm_transactions.specs.CommitRule.{OutlastsEnding};
ghost use Rattle.stm_transactions.specs.Seats.{Stays};
ghost use Rattle.stm_transactions.specs.Settles.{AreStored, AreTouched, IsLeaving, IsReleasing, IsStoring, IsTouching, IsUndone, OnlyGivesLocks, OnlyStores, OnlyTakesPins, OnlyTouches};

use core_table::event_table::Seat;
use core_table::slot_rule::SlotRule;
use core_table::stm::Stm;
use dude_base::limits::PAGE;
use dude_base::write_list::WriteList;

/// Stores all writes, each in the frame of its page.
pub fn store_all<S, X, K, P: SlotRule<S, X, K>>(
    stm: &Stm<S, X, K, P>,
    seat: &mut Seat<S, X>,
    writes: &WriteList,
    frames: &WriteList,
)
    requires seat { BelongsTo stm.now.events seat.old }
    requires slots { OutlastsEnding P.fact stm.now.events }
    requires storing { IsStoring stm.now.events.setup writes.now frames.now seat.old.me.0.view }
    ensures stays { Stays stm.now.events seat.old seat.new }
    ensures view { OnlyStores seat.old seat.new }
    ensures stored { AreStored writes.now seat.new.me.0.view }
{
    for k in 0..writes.len() {
        let w = writes.get(k);
        let _pages = frames.len();
        let Some(frame) = frames.find(w.at / PAGE) else {
            unreachable!()
        };
        stm.store(seat, w.at, frame, w.value);
    }
}

/// Raises the touches of all written pages to the number.
pub fn touch_all<S, X, K, P: SlotRule<S, X, K>>(
    stm: &Stm<S, X, K, P>,
    seat: &mut Seat<S, X>,
    number: u64,
    frames: &WriteList,
)
    requires seat { BelongsTo stm.now.events seat.old }
    requires slots { OutlastsEnding P.fact stm.now.events }
    requires touching { IsTouching number frames.now seat.old.me.0.view }
    ensures stays { Stays stm.now.events seat.old seat.new }
    ensures view { OnlyTouches seat.old seat.new }
    ensures touched { AreTouched frames.now seat.new.me.0.view }
{
    for k in 0..frames.len() {
        let f = frames.get(k);
        stm.touch(seat, f.at, number);
    }
}

/// Takes all pins back.
pub fn unpin_all<S, X, K, P: SlotRule<S, X, K>>(
    stm: &Stm<S, X, K, P>,
    seat: &mut Seat<S, X>,
    frames: &WriteList,
)
    requires seat { BelongsTo stm.now.events seat.old }
    requires slots { OutlastsEnding P.fact stm.now.events }
    requires leaving { IsLeaving frames.now seat.old.me.0.view }
    ensures stays { Stays stm.now.events seat.old seat.new }
    ensures view { OnlyTakesPins seat.old seat.new }
{
    for k in 0..frames.len() {
        let f = frames.get(k);
        stm.unpin(seat, f.at);
    }
}

/// Gives all locks their old words.
pub fn restore_all<S, X, K, P: SlotRule<S, X, K>>(
    stm: &Stm<S, X, K, P>,
    seat: &mut Seat<S, X>,
    held: &WriteList,
)
    requires undone { IsUndone held.now seat.old.me.0.view }
    requires seat { BelongsTo stm.now.events seat.old }
    requires slots { OutlastsEnding P.fact stm.now.events }
    ensures stays { Stays stm.now.events seat.old seat.new }
    ensures view { OnlyGivesLocks seat.old seat.new }
{
    for k in 0..held.len() {
        let w = held.get(k);
        stm.restore(seat, w.at, w.value);
    }
}

/// Gives all locks back with the number.
pub fn release_all<S, X, K, P: SlotRule<S, X, K>>(
    stm: &Stm<S, X, K, P>,
    seat: &mut Seat<S, X>,
    held: &WriteList,
    number: u64,
)
    requires seat { BelongsTo stm.now.events seat.old }
    requires slots { OutlastsEnding P.fact stm.now.events }
    requires releasing { IsReleasing number held.now seat.old.me.0.view }
    ensures stays { Stays stm.now.events seat.old seat.new }
    ensures view { OnlyGivesLocks seat.old seat.new }
{
    for k in 0..held.len() {
        let w = held.get(k);
        stm.release(seat, w.at, number);
    }
}
