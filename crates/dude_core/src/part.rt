//! The part of a view that says whose it is.

use crate::numbers::Numbers;
use std::marker::Model;

/// Whose view it is.
#[derive(Drop)]
pub struct Part {
    /// Whether it was joined into another.
    pub is_spent: bool,
    /// The thread that it is the view of.
    pub thread: Option<u64>,
    /// The threads of the views that were joined into it.
    pub ended: Numbers,
    /// How often it may still be split.
    pub splits: u64,
}

impl Model for Part {
    ghost use Rattle.core_events.specs.Views.{Part};

    ghost Value = { Part };

    ghost view = { λ a. record { is_spent = a.is_spent; thread = a.thread; ended = a.ended; splits = a.splits } };
}
