//! The part of a view that is about its boxes.

use std::marker::Model;

/// What the view keeps of its boxes.
#[derive(Drop)]
pub struct Boxes {
    /// The place of its next box.
    pub next: u64,
    /// That box was seen empty.
    pub is_empty: bool,
}

impl Model for Boxes {
    ghost use Rattle.core_events.specs.Views.{Boxes};

    ghost Value = { Boxes };

    ghost view = { λ a. record { next = a.next; is_empty = a.is_empty } };
}
