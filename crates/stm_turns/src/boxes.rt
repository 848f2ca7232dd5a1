//! The thread with the turn looks at boxes, takes records out of them, and puts one back.

ghost use Rattle.core_events.specs.Events.{see_full};
ghost use Rattle.core_table.specs.Steps.{IsAfter};
ghost use Rattle.std.specs.Prelude.{◌≡◌, ◌<◌, [], true, false};
ghost use Rattle.stm_turns.specs.Bundles.{FindsNumber, HasLast, MayLook, PutsLast};
ghost use Rattle.stm_turns.specs.InFront.{FindsWhether};
ghost use Rattle.stm_turns.specs.Turns.{HasHome, InTurn, LooksAtAll, Stepped, SteppedOn, found_in};

use crate::slots::{SlotSeat, read_record};
use dude_base::redo::Redo;
use pmem_trait::Medium;
use std::marker::Brand;
use stm_slots::home::Home;
use stm_slots::slots_rule::Events;

/// Looks at the front box of a thread, and takes its record.
pub fn see_front<M: Medium>(
    events: &Events<M>,
    seat: &mut SlotSeat<M>,
    home: &Home<M>,
    thread: u64,
) -> Option<Redo>
    requires turn { InTurn M.sight events.now seat.old home.now [] }
    requires thread { thread < events.now.setup.threads }
    ensures step { Stepped M.sight events.now seat.old seat.new home.now
        (found_in thread home.now.next result) }
    // Where it is the own thread, which has no open number.
    ensures drawn { LooksAtAll thread result seat.old seat.new }
{
    let place = home.next[thread as usize];
    let slot = events.box_number(thread, place);
    let found = events.load_by::<Brand, (u64, &Home<M>)>(
        seat,
        events.box_place(thread, place),
        &(thread, home),
    );
    if found == 0 {
        return None;
    }
    let redo = read_record(events, seat, slot);
    seat.turn();
    Some(redo)
}

/// What stands in a thread's box. It is left there.
pub fn look<M: Medium>(
    events: &Events<M>,
    seat: &mut SlotSeat<M>,
    home: &Home<M>,
    thread: u64,
    place: u64,
) -> u64
    requires turn { HasHome M.sight events.now seat.old home.now }
    requires thread { thread < events.now.setup.threads }
    requires place { place < events.now.setup.boxes }
    ensures step { SteppedOn M.sight events.now seat.old seat.new home.now home.now }
    ensures found { IsAfter events.now (see_full thread place) seat.old seat.new result }
{
    let at = events.box_place(thread, place);
    events.load_by::<Brand, (u64, u64, &Home<M>)>(seat, at, &(thread, place, home))
}

/// Looks for a number in a thread's box, and takes its slot where it is there.
pub fn look_for<M: Medium>(
    events: &Events<M>,
    seat: &mut SlotSeat<M>,
    home: &Home<M>,
    thread: u64,
    place: u64,
    number: u64,
) -> bool
    requires look { MayLook M.sight events.now seat.old home.now thread place number }
    ensures found { result ≡ true
        → FindsNumber M.sight events.now seat.old seat.new home.now thread place number }
    ensures missed { result ≡ false
        → SteppedOn M.sight events.now seat.old seat.new home.now home.now }
    ensures saw { FindsWhether events.now.setup thread place number
        seat.old.me.0.view seat.new.me.0.view result }
{
    let at = events.box_place(thread, place);
    let about = (thread, place, number, home);
    events.load_by::<Brand, (u64, u64, u64, &Home<M>)>(seat, at, &about) == number
}

/// Puts the record that was taken last back into its box.
pub fn put_last<M: Medium>(
    events: &Events<M>,
    seat: &mut SlotSeat<M>,
    home: &Home<M>,
    thread: u64,
    place: u64,
)
    requires found { HasLast M.sight events.now seat.old home.now thread place }
    ensures step { PutsLast M.sight events.now seat.old seat.new home.now thread place }
{
    let at = events.box_place(thread, place);
    events.load_by::<Brand, (u64, u64, &Home<M>)>(seat, at, &(thread, place, home));
}
