//! The draw and the post of slots that hold records.

use crate::box_rule::BoxRule;
use core_table::change::Change;
use core_table::event_table::Seat;
use core_table::places::CLOCK;
use core_table::served::Served;
use core_table::stm::Stm;
use dude_base::redo::Redo;
use dude_base::write_list::WriteList;
use pmem_trait::Medium;
use std::marker::Brand;
use stm_slots::beside::Beside;
use stm_slots::opening::Opening;
use stm_slots::slot::Slot;
use stm_slots::slots_rule::KeptSlots;

impl<M: Medium> BoxRule<Slot<M>, Beside, Opening<M>> for KeptSlots<M> {
    ghost use Rattle.std.specs.Prelude.{[], ◌∷◌};
    ghost use Rattle.stm_slots.specs.declared.slot.Slot.TheVariants.{Empty};

    ghost taken = { Empty ∷ [] };

    fn draw(
        stm: &Stm<Slot<M>, Beside, Opening<M>, Self>,
        seat: &mut Seat<Slot<M>, Beside>,
        served: &Served,
        writes: &WriteList,
    ) -> u64 {
        // The setup is that of the key.
        let _boxes = stm.events.box_count();
        let next = Change::Add { more: 1 };
        stm.events
            .change_by::<Brand, (&Served, &WriteList)>(seat, CLOCK, next, &(served, writes))
    }

    fn post(
        stm: &Stm<Slot<M>, Beside, Opening<M>, Self>,
        seat: &mut Seat<Slot<M>, Beside>,
        thread: u64,
        place: u64,
        redo: Redo,
    ) {
        let events = &stm.events;
        // The setup is that of the key.
        let _boxes = events.box_count();
        let number = redo.number();
        match events.change_slot(seat, events.box_number(thread, place), Slot::Record(redo)) {
            Slot::Empty => {}
            Slot::Record(_redo) => unreachable!(),
            Slot::Home(_home) => unreachable!(),
        }
        events.store_by::<Brand, ()>(seat, events.box_place(thread, place), number, &());
    }
}
