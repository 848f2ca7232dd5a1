//! What a ring keeps of a bundle in it.

use std::marker::Model;

/// A bundle in a ring: its last number, how many before it are covered too, the slot of its head,
/// and how many cells it takes.
#[derive(Clone, Copy)]
pub(crate) struct LoggedBundle {
    pub last: u64,
    pub span: u64,
    pub slot: u64,
    pub cells: u64,
}

impl Model for LoggedBundle {
    ghost use Rattle.redo_record.specs.Fits.{Logged};

    ghost Value = { Logged };

    ghost view = { λ l. record { last = l.last; span = l.span; slot = l.slot; cells = l.cells } };

    ghost inverse = { λ l. record { last = l.last; span = l.span; slot = l.slot; cells = l.cells } };
}
