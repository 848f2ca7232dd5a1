//! A bundle that waits to be reproduced.

ghost use Rattle.std.specs.Prelude.{◌≡◌};

use dude_base::bundle::Bundle;
use std::marker::Model;

/// A bundle that waits to be reproduced, and the ring that it stands in.
#[derive(Drop)]
pub struct WaitingBundle {
    ring: u64,
    redo: Bundle,
}

impl WaitingBundle {
    /// The bundle, in this ring.
    pub fn new(ring: u64, redo: Bundle) -> Self
        ensures { result ≡ record { ring = ring; redo = redo } }
    {
        WaitingBundle { ring, redo }
    }

    /// The ring that it stands in.
    pub fn ring(&self) -> u64
        ensures { result ≡ self.now.ring }
    {
        self.ring
    }

    /// The bundle.
    pub fn redo(&self) -> &Bundle
        ensures { result.now ≡ self.now.redo }
    {
        &self.redo
    }
}

impl Model for WaitingBundle {
    ghost use Rattle.redo_record.specs.Waiting.{Waiting};

    ghost Value = { Waiting };

    ghost view = { λ w. record { ring = w.ring; redo = w.redo } };
}
