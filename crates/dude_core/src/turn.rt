//! The part of a view that is about the turn.

use crate::pairs::Pairs;
use std::marker::Model;

/// What the view keeps of the turn.
#[derive(Drop)]
pub struct Turn {
    /// Whether it has the turn.
    pub has_it: bool,
    /// How many turns it took; the count stays at its last value.
    pub count: u64,
    /// The greatest durable number that it raised.
    pub durable: u64,
    /// One of its turns ended with a fault.
    pub met_fault: bool,
    /// The numbers found in boxes in this turn.
    pub full: Pairs,
    /// The touches of pages found in this turn.
    pub touches: Pairs,
    /// The home words filled in this turn, with their frames.
    pub filled: Pairs,
}

impl Model for Turn {
    ghost use Rattle.core_events.specs.Views.{Turn};

    ghost Value = { Turn };

    ghost view = { λ a. record { has_it = a.has_it; count = a.count; durable = a.durable; met_fault = a.met_fault; full = a.full; touches = a.touches; filled = a.filled } };
}
