//! The part of a view that is about its transaction.

use crate::hand::Hand;
use crate::numbers::Numbers;
use crate::pairs::Pairs;
use std::marker::Model;

/// The transaction of a view.
#[derive(Drop)]
pub struct Transaction {
    /// There is one.
    pub is_open: bool,
    /// The number whose values it reads.
    pub snapshot: u64,
    /// The number that an extension goes to, while one is open.
    pub extension: Option<u64>,
    /// The confirmed reads, by home word.
    pub reads: Pairs,
    /// The locks found good since the draw, or since the extension began.
    pub checked: Numbers,
    /// The last look: a lock, and its word.
    pub look: Option<(u64, u64)>,
    /// The value that waits for its second look, behind its home word.
    pub loaded: Option<(u64, u64)>,
    /// The locks that it owns, with their old words.
    pub owned: Pairs,
    /// The number that it drew.
    pub hand: Hand,
}

impl Model for Transaction {
    ghost use Rattle.core_events.specs.Views.{Transaction};

    ghost Value = { Transaction };

    ghost view = { λ a. record { is_open = a.is_open; snapshot = a.snapshot; extension = a.extension; reads = a.reads; checked = a.checked; look = a.look; loaded = a.loaded; owned = a.owned; hand = a.hand } };
}
