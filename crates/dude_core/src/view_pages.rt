//! The part of a view that is about pages.

use crate::numbers::Numbers;
use crate::pairs::Pairs;
use std::marker::Model;

/// What the view keeps of pages.
#[derive(Drop)]
pub struct Paging {
    /// The page entries that it keeps, the newest first.
    pub entries: Pairs,
    /// The pages that it pins, with their frames.
    pub pins: Pairs,
    /// The pages that its number touched.
    pub touched: Numbers,
}

impl Model for Paging {
    ghost use Rattle.core_events.specs.Views.{Paging};

    ghost Value = { Paging };

    ghost view = { λ a. record { entries = a.entries; pins = a.pins; touched = a.touched } };
}
