//! The rule of the slots.

use crate::beside::Beside;
use crate::opening::Opening;
use crate::slot::Slot;
use core_table::event_table::EventTable;
use core_table::slot_rule::SlotRule;
use pmem_trait::Medium;
use std::marker::PhantomData;

/// The table of running transactions.
pub type Events<M> = EventTable<Slot<M>, Beside, Opening<M>, KeptSlots<M>>;

/// The back is kept, in its slot or with the thread that has the turn, and each full box has its
/// record.
pub struct KeptSlots<M> {
    marker: PhantomData<M>,
}

impl<M: Medium> SlotRule<Slot<M>, Beside, Opening<M>> for KeptSlots<M> {
    ghost use Rattle.stm_slots.specs.Beside.{nothing_beside};
    ghost use Rattle.stm_slots.specs.Opening.{setup_of};
    ghost use Rattle.stm_slots.specs.Rule.{SlotsKept};
    ghost use Rattle.stm_slots.specs.Stage.{stage_of};

    ghost setup = { setup_of M.sight };

    ghost fact = { λ key c xs homes. SlotsKept M.sight key (stage_of c) xs homes };

    ghost beside = { nothing_beside };
}
