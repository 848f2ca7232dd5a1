//! The turn is taken and given.

ghost use Rattle.back_store.specs.BackView.{state_of};
ghost use Rattle.core_events.specs.Conditions.{May};
ghost use Rattle.core_events.specs.Events.{give_turn as turn_given, take_turn as turn_taken};
ghost use Rattle.core_table.specs.Steps.{BelongsTo, IsAfter};
ghost use Rattle.std.specs.Prelude.{◌≡◌, true, [], IfOk, IfErr, OnErr};
ghost use Rattle.stm_slots.specs.Lists.{IsSettled};
ghost use Rattle.stm_turns.specs.Turns.{HasTaken, InTurn, IsBare, IsOthers};

use crate::slots::{SlotSeat, lay};
use core_table::change::Change;
use core_table::places::TURN;
use pmem_trait::Medium;
use std::marker::Brand;
use stm_slots::home::Home;
use stm_slots::slot::Slot;
use stm_slots::slots_rule::Events;

/// Takes the turn, with what the back's slot has; or gives the turn word, where it isn't 0.
pub fn take_turn<M: Medium>(
    events: &Events<M>,
    seat: &mut SlotSeat<M>,
    thread: u64,
) -> Result<Home<M>, u64>
    requires seat { BelongsTo events.now seat.old }
    requires thread { seat.old.me.0.view.part.thread ≡ Some thread }
    requires may { May events.now.setup turn_taken seat.old.me.0.view }
    requires bare { seat.old.me.1 ≡ [] }
    ensures id { seat.new.id ≡ seat.old.id }
    ensures ok { IfOk result (λ home. HasTaken M.sight events.now seat.old seat.new home) }
    ensures err { IfErr result (λ seen. IsOthers events.now seen seat.old seat.new) }
    ensures left { OnErr result (IsBare events.now seat.old seat.new) }
{
    let slot = events.box_count();
    let had = Change::Exchange {
        from: 0,
        to: thread + 1,
    };
    let seen = events.change_by::<Brand, ()>(seat, TURN, had, &());
    if seen != 0 {
        return Err(seen);
    }
    match events.change_slot(seat, slot, Slot::Empty) {
        Slot::Home(home) => Ok(home),
        Slot::Empty => unreachable!(),
        Slot::Record(_redo) => unreachable!(),
    }
}

/// Puts the back into its slot and gives the turn; `failed` says whether it met a fault.
pub fn give_turn<M: Medium>(events: &Events<M>, seat: &mut SlotSeat<M>, home: Home<M>, failed: bool)
    requires turn { InTurn M.sight events.now seat.old home [] }
    requires fault { failed ≡ true → (state_of home.back).dead ≡ true }
    requires settled { IsSettled (state_of home.back) }
    ensures view { IsAfter events.now (turn_given failed) seat.old seat.new 0 }
    ensures bare { IsBare events.now seat.old seat.new }
{
    let slot = events.box_count();
    lay(events, seat, slot, Slot::Home(home));
    events.store_by::<Brand, bool>(seat, TURN, 0, &failed);
}
