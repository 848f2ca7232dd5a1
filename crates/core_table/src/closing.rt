//! A table that no thread shares any more.

ghost use Rattle.core_table.specs.Steps.{BelongsTo, HasCounts, EndsWith};
ghost use Rattle.std.specs.Mem.Slots.{slots_items, slots_len, IsFull};

use crate::event_table::{EventTable, Seat};
use crate::slot_rule::SlotRule;
use atomic_table::Closed;
use std::alloc::Global;

impl<S, X, K, P: SlotRule<S, X, K>> EventTable<S, X, K, P> {
    /// Ends the table with the last seat: its words and slots are those of a state that keeps the
    /// rule, in which the seat knows what it knows.
    pub fn close(self, seat: Seat<S, X>) -> Closed<S, Global>
        requires { BelongsTo self seat }
        ensures counts { HasCounts self (slots_len result.words) (slots_len result.slots) }
        ensures full { IsFull result.words × IsFull result.slots }
        ensures values { EndsWith P.fact self seat
            (slots_items result.words) (slots_items result.slots) }
    {
        let EventTable {
            table,
            threads: _,
            locks: _,
            pages: _,
            frames: _,
            boxes: _,
        } = self;
        table.close_with(seat)
    }
}
