//! What became of the lines that were written for want of room.

/// What became of the lines that were written for want of room, with no sync of their own.
#[derive(Clone, Copy)]
pub enum Spill {
    /// There are none, or all are synced.
    Synced,
    /// The next sync makes them durable.
    Unsynced,
    /// A fence failed that should have synced them. They are noted no more, so nothing can write them again.
    Lost,
}

impl Spill {
    ghost use Rattle.dude_io.specs.Spill.{spill_more, spill_fenced};
    ghost use Rattle.std.specs.Prelude.{◌≡◌};

    /// Behind a further such line.
    pub(crate) fn more(self) -> Spill
        ensures { result ≡ spill_more self }
    {
        match self {
            Spill::Synced | Spill::Unsynced => Spill::Unsynced,
            Spill::Lost => Spill::Lost,
        }
    }

    /// Behind a fence.
    pub(crate) fn fenced(self, is_done: bool) -> Spill
        ensures { result ≡ spill_fenced is_done self }
    {
        match (self, is_done) {
            (_, true) | (Spill::Synced, false) => Spill::Synced,
            (Spill::Unsynced | Spill::Lost, false) => Spill::Lost,
        }
    }
}
