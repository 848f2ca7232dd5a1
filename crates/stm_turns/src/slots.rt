//! What stands in the slot that a seat took last.

ghost use Rattle.atomic_table.specs.Table.{rest};
ghost use Rattle.core_table.specs.Steps.{IsSameSeat};
ghost use Rattle.std.specs.Prelude.{◌≡◌, ◌∷◌};
ghost use Rattle.stm_slots.specs.declared.slot.Slot.TheVariants.{Empty, Record};
ghost use Rattle.stm_turns.specs.Turns.{FrontRecord};

use core_table::event_table::Seat;
use core_table::slot_steps::lend_slot;
use dude_base::redo::Redo;
use pmem_trait::Medium;
use stm_slots::beside::Beside;
use stm_slots::slot::Slot;
use stm_slots::slots_rule::Events;

/// A seat of the table of running transactions.
pub type SlotSeat<M> = Seat<Slot<M>, Beside>;

/// Takes the record of a box.
pub fn take_record<M: Medium>(events: &Events<M>, seat: &mut SlotSeat<M>, slot: usize) -> Redo
    requires table { seat.old.table_id ≡ events.now.id }
    requires front { FrontRecord seat.old.me.1 slot }
    ensures same { IsSameSeat seat.old seat.new }
    ensures me { seat.new.me ≡ (seat.old.me.0, (slot, Empty) ∷ rest seat.old.me.1) }
    ensures was { seat.old.me.1 ≡ (slot, Record result) ∷ rest seat.old.me.1 }
{
    match events.change_slot(seat, slot, Slot::Empty) {
        Slot::Record(redo) => redo,
        Slot::Empty => unreachable!(),
        Slot::Home(_home) => unreachable!(),
    }
}

/// Puts a value in the slot, which is empty.
pub fn lay<M: Medium>(events: &Events<M>, seat: &mut SlotSeat<M>, slot: usize, value: Slot<M>)
    requires table { seat.old.table_id ≡ events.now.id }
    requires front { seat.old.me.1 ≡ (slot, Empty) ∷ rest seat.old.me.1 }
    ensures same { IsSameSeat seat.old seat.new }
    ensures me { seat.new.me ≡ (seat.old.me.0, (slot, value) ∷ rest seat.old.me.1) }
{
    match events.change_slot(seat, slot, value) {
        Slot::Empty => {}
        Slot::Record(_redo) => unreachable!(),
        Slot::Home(_home) => unreachable!(),
    }
}

/// The record of a box whose slot was taken last. It stays in the slot.
pub fn read_record<M: Medium>(events: &Events<M>, seat: &mut SlotSeat<M>, slot: usize) -> Redo
    requires table { seat.old.table_id ≡ events.now.id }
    requires front { FrontRecord seat.old.me.1 slot }
    ensures same { IsSameSeat seat.old seat.new }
    ensures me { seat.new.me ≡ seat.old.me }
    ensures was { seat.old.me.1 ≡ (slot, Record result) ∷ rest seat.old.me.1 }
{
    match lend_slot(seat, events, slot) {
        Slot::Record(redo) => redo.copy(),
        Slot::Empty => unreachable!(),
        Slot::Home(_home) => unreachable!(),
    }
}
