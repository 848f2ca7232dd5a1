//! The records in hand go: their boxes are emptied where they were handed over, or they are put back.

ghost use Rattle.dude_base.specs.declared.limits.TheConstants.{MAX_SPAN};
ghost use Rattle.std.specs.Prelude.{◌≡◌, ◌+◌, ◌≤◌, []};
ghost use Rattle.stm_turns.specs.Bundles.{EmptiesFirst, MayEmptyAll, MayEmptyFirst, MayPutAllBack};
ghost use Rattle.stm_turns.specs.Turns.{Stepped};

use crate::gathering::Gathering;
use crate::places::next_place;
use crate::slots::{SlotSeat, take_record};
use pmem_trait::Medium;
use std::marker::Brand;
use stm_slots::home::Home;
use stm_slots::slots_rule::Events;

/// Empties the front box of a thread, whose record was handed over.
fn empty_first<M: Medium>(
    events: &Events<M>,
    seat: &mut SlotSeat<M>,
    home: &mut Home<M>,
    thread: u64,
)
    requires may { MayEmptyFirst M.sight events.now seat.old home.old thread }
    ensures emptied { EmptiesFirst M.sight events.now seat.old seat.new home.old home.new thread }
    ensures back { home.new.back ≡ home.old.back }
{
    let place = home.next[thread as usize];
    let slot = events.box_number(thread, place);
    let _redo = take_record(events, seat, slot);
    home.next[thread as usize] = next_place(place, events.boxes());
    let at = events.box_place(thread, place);
    events.store_by::<Brand, (u64, u64, &Home<M>)>(seat, at, 0, &(thread, place, &*home));
}

/// Empties the boxes of the records in hand, in their order.
pub fn empty_all<M: Medium>(
    events: &Events<M>,
    seat: &mut SlotSeat<M>,
    home: &mut Home<M>,
    gathering: &Gathering,
)
    requires may { MayEmptyAll M.sight events.now seat.old home.old gathering.now }
    requires few { gathering.now.count ≤ MAX_SPAN + 1 }
    ensures step { Stepped M.sight events.now seat.old seat.new home.new [] }
    ensures back { home.new.back ≡ home.old.back }
{
    seat.turn();
    for number in 0..gathering.count {
        empty_first(
            events,
            seat,
            home,
            gathering.threads[number as usize] as u64,
        );
    }
}

/// Puts the records in hand back into their boxes.
pub fn put_all_back<M: Medium>(
    events: &Events<M>,
    seat: &mut SlotSeat<M>,
    home: &Home<M>,
    gathering: &Gathering,
)
    requires may { MayPutAllBack M.sight events.now seat.old home.now gathering.now }
    requires few { gathering.now.count ≤ MAX_SPAN + 1 }
    ensures step { Stepped M.sight events.now seat.old seat.new home.now [] }
{
    seat.turn();
    let mut places = home.next;
    for number in 0..gathering.count {
        let thread = gathering.threads[number as usize] as u64;
        let place = places[thread as usize];
        let at = events.box_place(thread, place);
        events.load_by::<Brand, (u64, u64, &Home<M>)>(seat, at, &(thread, place, home));
        places[thread as usize] = next_place(place, events.boxes());
    }
}
