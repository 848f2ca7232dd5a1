//! What an event does with the record of a box.

ghost use Rattle.dude_core.specs.BoxEvents.{IsBoxEvent};
ghost use Rattle.dude_core.specs.Named.{event_of, of_turn};

use crate::deed::{Deed, TurnDeed};

/// What an event does with the record of a box.
#[derive(Drop)]
pub(crate) enum BoxEvent {
    /// A record is put into the view's next box.
    Post,
    /// The record leaves this box.
    Empty { thread: u64, place: u64 },
    /// All records stay.
    Other,
}

impl BoxEvent {
    pub(crate) fn of(deed: &Deed) -> Self
        ensures { IsBoxEvent result (event_of deed.now) }
    {
        match deed {
            Deed::Read(_) => BoxEvent::Other,
            Deed::Write(_) => BoxEvent::Other,
            Deed::Turn(deed) => BoxEvent::of_turn(deed),
            Deed::Page(_) => BoxEvent::Other,
        }
    }

    fn of_turn(deed: &TurnDeed) -> Self
        ensures { IsBoxEvent result (of_turn deed.now) }
    {
        match deed {
            TurnDeed::SeeBox => BoxEvent::Other,
            TurnDeed::Post => BoxEvent::Post,
            TurnDeed::TakeTurn => BoxEvent::Other,
            TurnDeed::GiveTurn { failed: _ } => BoxEvent::Other,
            TurnDeed::SeeFull {
                thread: _,
                place: _,
            } => BoxEvent::Other,
            TurnDeed::EmptyBox { thread, place } => BoxEvent::Empty {
                thread: *thread,
                place: *place,
            },
            TurnDeed::RaiseDurable { value: _ } => BoxEvent::Other,
            TurnDeed::RaiseReproduced { value: _ } => BoxEvent::Other,
        }
    }
}
