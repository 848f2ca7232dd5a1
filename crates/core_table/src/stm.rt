//! What threads make the steps of running transactions on.

use crate::event_table::EventTable;
use crate::slot_rule::SlotRule;

/// Running transactions: what threads make their steps on.
///
/// A step takes a seat of the table, whose view allows the event, and leaves the view as the event
/// says. What an event asks of the rest of the state has to hold in every state of the table in which
/// the seat knows what it knows (`fits`). Of the slots a step asks that the user's fact outlasts it
/// where none is moved (`slots`).
#[derive(Drop)]
pub struct Stm<S, X, K, P: SlotRule<S, X, K>> {
    pub events: EventTable<S, X, K, P>,
}
