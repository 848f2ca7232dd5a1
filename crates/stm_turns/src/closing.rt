//! The table is closed by the last seat.

ghost use Rattle.core_events.specs.Telling.{HasAll};
ghost use Rattle.core_table.specs.Steps.{BelongsTo, HasCounts};
ghost use Rattle.std.specs.Mem.Slots.{slots_items, slots_len, IsFull};
ghost use Rattle.std.specs.Prelude.{◌≡◌, ◌+◌, false};
ghost use Rattle.stm_slots.specs.Closed.{IsClosed};
ghost use Rattle.stm_slots.specs.Opening.{setup_of};
ghost use Rattle.stm_slots.specs.Queues.{back_slot};

use crate::slots::SlotSeat;
use atomic_table::Closed;
use pmem_trait::Medium;
use std::alloc::Global;
use stm_slots::slot::Slot;
use stm_slots::slots_rule::Events;

/// Ends the table. Its last slot has the kept back, and each full box its record.
pub fn close_events<M: Medium>(events: Events<M>, seat: SlotSeat<M>) -> Closed<Slot<M>, Global>
    requires seat { BelongsTo events seat }
    requires all { HasAll events.setup seat.me.0.view }
    requires no_turn { seat.me.0.view.turn.has_it ≡ false }
    requires idle { seat.me.0.view.tx.hand.number ≡ 0 }
    ensures counts { HasCounts events (slots_len result.words) (slots_len result.slots) }
    // The back's slot is the last one.
    ensures last { slots_len result.slots ≡ back_slot (setup_of M.sight events.key) + 1 }
    ensures full { IsFull result.words × IsFull result.slots }
    ensures closed { IsClosed M.sight events.key seat.me.0.view
        (slots_items result.words) (slots_items result.slots) }
{
    // The setup is that of the key.
    let _count = events.box_count();
    events.close(seat)
}
