//! The records of full boxes are persisted in bundles, and made durable and reproduced.

ghost use Rattle.back_store.specs.BackView.{state_of};
ghost use Rattle.dude_base.specs.declared.limits.TheConstants.{MAX_RINGS, MAX_SPAN};
ghost use Rattle.std.specs.Prelude.{◌≡◌, ◌≤◌, ◌<◌, ◌+◌, ℕ, [], slice_index, Some, IfOk, IfSome, IfNone, false};
ghost use Rattle.stm_turns.specs.Bundles.{EndsNext, NextIsNotDrawn};
ghost use Rattle.stm_turns.specs.InFront.{AreLeft, IsLeast, NoneToTake};
ghost use Rattle.stm_turns.specs.Turns.{Advanced, EndsSettled, FailsBy, HandedBelow, InTurn, IsOwn, LivesBy, found_in};

use crate::boxes::see_front;
use crate::bundles::persist_bundle;
use crate::calls::catch_up;
use crate::gathering::Gathering;
use crate::gathers::{Fronts, LEFT, gather, look_again, look_at_all, look_behind};
use crate::letting::put_all_back;
use crate::slots::SlotSeat;
use back_store::BackFault;
use dude_base::limits::{MAX_NUMBER, MAX_RINGS};
use dude_base::redo::Redo;
use pmem_trait::Medium;
use stm_slots::home::Home;
use stm_slots::slots_rule::Events;

/// The thread with the least number in front, of so many.
fn least(fronts: &Fronts, threads: u64) -> Option<u64>
    requires { threads ≤ MAX_RINGS }
    ensures some { IfSome result (IsLeast fronts.now threads) }
    ensures none { IfNone result (NoneToTake fronts.now threads) }
{
    let mut least = None;
    let mut number = LEFT;
    for thread in 0..threads {
        let front = fronts[thread as usize];
        if front != 0 && front < number {
            least = Some(thread);
            number = front;
        }
    }
    least
}

/// Nothing is taken any more from threads whose records were in hand, and stay in their boxes.
fn leave(fronts: &mut Fronts, gathering: &Gathering)
    requires few { gathering.now.count ≤ MAX_SPAN + 1 }
    requires threads { (i : ℕ) → i < gathering.now.count
        → slice_index gathering.now.threads i < MAX_RINGS }
    ensures { AreLeft gathering.now.threads gathering.now.count fronts.old fronts.new }
{
    for k in 0..gathering.count as usize {
        fronts[gathering.threads[k] as usize] = LEFT;
    }
}

/// Persists a bundle that begins with the front record of a thread. `durable` is the durable number
/// that the seat knows, here and below.
fn persist_from<M: Medium>(
    events: &Events<M>,
    seat: &mut SlotSeat<M>,
    home: &mut Home<M>,
    fronts: &mut Fronts,
    thread: u64,
    durable: &mut u64,
) -> Result<(), BackFault>
    requires turn { InTurn M.sight events.now seat.old home.old [] }
    requires thread { thread < events.now.setup.threads }
    requires alive { (state_of home.old.back).dead ≡ false }
    ensures step { Advanced M.sight events.now durable.old durable.new
        seat.old seat.new home.new [] }
    ensures life { LivesBy result (state_of home.old.back) (state_of home.new.back) }
{
    let Some(redo) = see_front(events, seat, home, thread) else {
        fronts[thread as usize] = 0;
        return Ok(());
    };
    let mut gathering = Gathering::begin(thread, &redo, &home.next, events.boxes());
    look_behind(events, seat, home, &gathering, fronts, thread);
    gather(events, seat, home, &mut gathering, fronts);
    if !persist_bundle(events, seat, home, &gathering, durable)? {
        leave(fronts, &gathering);
    }
    Ok(())
}

/// Persists what boxes have in bundles, of which each begins with the least number that is left.
fn persist_all<M: Medium>(
    events: &Events<M>,
    seat: &mut SlotSeat<M>,
    home: &mut Home<M>,
    durable: &mut u64,
) -> Result<(), BackFault>
    requires turn { InTurn M.sight events.now seat.old home.old [] }
    requires alive { (state_of home.old.back).dead ≡ false }
    ensures step { Advanced M.sight events.now durable.old durable.new
        seat.old seat.new home.new [] }
    ensures life { LivesBy result (state_of home.old.back) (state_of home.new.back) }
{
    let mut fronts = look_at_all(events, seat, home, &home.next);
    for _ in 0..events.box_count() {
        let Some(thread) = least(&fronts, events.threads()) else {
            return Ok(());
        };
        persist_from(events, seat, home, &mut fronts, thread, durable)?;
        // While that was written, threads may have posted.
        look_again(events, seat, home, &home.next, 0, &mut fronts);
    }
    Ok(())
}

/// With the record in hand that was found in front of the own boxes: where it has the number behind
/// the announced one, persists a bundle that begins with it, and announces and reproduces; answers
/// the number then. Else it is put back.
fn persist_found<M: Medium>(
    events: &Events<M>,
    seat: &mut SlotSeat<M>,
    home: &mut Home<M>,
    own: u64,
    redo: &Redo,
    number: u64,
    durable: &mut u64,
) -> Result<Option<u64>, BackFault>
    requires turn { InTurn M.sight events.now seat.old home.old
        (found_in own home.old.next (Some redo.now)) }
    requires thread { own < events.now.setup.threads }
    requires drawn { HandedBelow seat.old.me.0 (Some redo.now.number) }
    requires settled { EndsSettled seat.old home.old number }
    ensures step { Advanced M.sight events.now durable.old durable.new
        seat.old seat.new home.new [] }
    ensures next { IfOk result (EndsNext own number seat.new home.old home.new) }
    ensures cause { FailsBy result (state_of home.old.back) (state_of home.new.back) }
{
    let mut gathering = Gathering::begin(own, redo, &home.next, events.boxes());
    if redo.number() != number + 1 {
        put_all_back(events, seat, home, &gathering);
        return Ok(None);
    }
    let mut fronts = look_at_all(events, seat, home, &gathering.ahead);
    gather(events, seat, home, &mut gathering, &mut fronts);
    if !persist_bundle(events, seat, home, &gathering, durable)? {
        unreachable!();
    }
    Ok(Some(catch_up(events, seat, home, durable)?))
}

/// Where the number behind the announced one stands in front of the own boxes, persists a bundle
/// that begins with it, and announces and reproduces; answers the number then.
fn persist_next<M: Medium>(
    events: &Events<M>,
    seat: &mut SlotSeat<M>,
    home: &mut Home<M>,
    own: u64,
    number: u64,
    durable: &mut u64,
) -> Result<Option<u64>, BackFault>
    requires turn { InTurn M.sight events.now seat.old home.old [] }
    requires own { IsOwn own seat.old }
    requires thread { own < events.now.setup.threads }
    requires settled { EndsSettled seat.old home.old number }
    ensures step { Advanced M.sight events.now durable.old durable.new
        seat.old seat.new home.new [] }
    ensures next { IfOk result (EndsNext own number seat.new home.old home.new) }
    ensures cause { FailsBy result (state_of home.old.back) (state_of home.new.back) }
{
    let Some(redo) = see_front(events, seat, home, own) else {
        return Ok(None);
    };
    persist_found(events, seat, home, own, &redo, number, durable)
}

/// Persists what the boxes of all threads have, in bundles of consecutive numbers, and makes all
/// that leads on durable and reproduced.
pub fn settle<M: Medium>(
    events: &Events<M>,
    seat: &mut SlotSeat<M>,
    home: &mut Home<M>,
    own: u64,
    durable: &mut u64,
) -> Result<u64, BackFault>
    requires turn { InTurn M.sight events.now seat.old home.old [] }
    requires own { IsOwn own seat.old }
    requires thread { own < events.now.setup.threads }
    requires alive { (state_of home.old.back).dead ≡ false }
    ensures step { Advanced M.sight events.now durable.old durable.new
        seat.old seat.new home.new [] }
    ensures ok { IfOk result (λ n. EndsSettled seat.new home.new n) }
    ensures next { IfOk result (λ n. NextIsNotDrawn seat.new n) }
    ensures cause { FailsBy result (state_of home.old.back) (state_of home.new.back) }
{
    persist_all(events, seat, home, durable)?;
    let mut number = catch_up(events, seat, home, durable)?;
    // As long as the number behind the announced one stands in front of the own boxes. Each bundle
    // begins with a greater number than the one before.
    for _look in 0..MAX_NUMBER + 1 {
        match persist_next(events, seat, home, own, number, durable)? {
            Some(next) => number = next,
            None => return Ok(number),
        }
    }
    unreachable!()
}
