//! The number that a view drew and hasn't posted.

use crate::about::About;
use crate::numbers::Numbers;
use dude_base::write_list::WriteList;
use std::marker::Model;

/// The number that the view drew and hasn't posted.
#[derive(Drop)]
pub struct Hand {
    /// The number; 0 where there is none.
    pub number: u64,
    /// Whether its writes count.
    pub decided: bool,
    /// Whether a lock of its reads wasn't good, so that it writes nothing.
    pub void: bool,
    /// The request that it is of, and the reply.
    pub about: About,
    /// What it writes.
    pub writes: WriteList,
    /// The home words that it has stored, the last one first.
    pub stored: Numbers,
}

impl Model for Hand {
    ghost use Rattle.core_events.specs.Views.{Hand};

    ghost Value = { Hand };

    ghost view = { λ a. record { number = a.number; decided = a.decided; void = a.void; about = a.about; writes = a.writes; stored = a.stored } };
}
