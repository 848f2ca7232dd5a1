//! The view of a thread, with all its parts.

use crate::boxes::Boxes;
use crate::entry::Entry;
use crate::numbers::Numbers;
use crate::part::Part;
use crate::transaction::Transaction;
use crate::turn::Turn;
use crate::view_pages::Paging;
use crate::word::Word;
use std::marker::Model;

/// What the thread with a seat at the table knows of its own steps.
#[derive(Drop)]
pub struct View {
    /// Whose view it is.
    pub part: Part,
    /// How many numbers it may still draw.
    pub draws: u64,
    /// All numbers that it drew, the last one last.
    pub drawn: Numbers,
    /// Its transaction.
    pub tx: Transaction,
    /// What it keeps of pages.
    pub paging: Paging,
    /// What it keeps of its boxes.
    pub boxes: Boxes,
    /// What it keeps of the turn.
    pub turn: Turn,
    /// What its transactions, and those of views joined into it, left.
    pub entries: Vec<Entry>,
    /// The last word that it found, and what it held.
    pub found: Option<(Word, u64)>,
    /// How many words it found; the count stays at its last value.
    pub count: u64,
}

impl Model for View {
    ghost use Rattle.core_events.specs.Views.{View};
    ghost use Rattle.dude_core.specs.Named.{found_of};

    ghost Value = { View };

    ghost view = { λ a. record { part = a.part; draws = a.draws; drawn = a.drawn; tx = a.tx; paging = a.paging; box = a.boxes; turn = a.turn; entries = a.entries.items; found = found_of a.found; count = a.count } };
}
