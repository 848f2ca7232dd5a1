//! What an event drops of the words read, by the state.

ghost use Rattle.core_events.specs.Views.{View as Seen};
ghost use Rattle.dude_core.specs.DroppedReads.{Drops, dropped_from};
ghost use Rattle.dude_core.specs.Named.{event_of, of_turn, of_page};
ghost use Rattle.dude_core.specs.Views.{OfView};
ghost use Rattle.std.specs.Prelude.{◌≡◌, ℕ, List, if◌then◌else◌};
ghost use lib.ListN.{get_elem?};
ghost use mathlib.Core.Option.{some};

use crate::deed::{Deed, PageDeed, TurnDeed};
use crate::dropped::Dropped;
use crate::setup::Setup;
use crate::state::State;
use crate::view::View;
use crate::words::load;

impl State {
    // What the event of the view `who` drops of the words read.
    pub(crate) fn drops(&self, z: &Setup, who: u64, deed: &Deed) -> Dropped
        requires { (v : Seen) × (get_elem? self.now.views who ≡ some v) }
        ensures { OfView self.now.views who
            (λ v. Drops z.now (event_of deed.now) self.now v result) }
    {
        self.view_drops(z, &self.views[who as usize], deed)
    }

    fn view_drops(&self, z: &Setup, view: &View, deed: &Deed) -> Dropped
        ensures { Drops z.now (event_of deed.now) self.now view.now result }
    {
        match deed {
            Deed::Read(_) => Dropped::Nothing,
            Deed::Write(_) => Dropped::Nothing,
            Deed::Turn(deed) => self.turn_drops(z, view, deed),
            Deed::Page(deed) => self.page_drops(z, view, deed),
        }
    }

    fn turn_drops(&self, z: &Setup, view: &View, deed: &TurnDeed) -> Dropped
        ensures { Drops z.now (of_turn deed.now) self.now view.now result }
    {
        match deed {
            TurnDeed::TakeTurn => dropped_if(self.turn == 0, Dropped::Everything),
            TurnDeed::RaiseReproduced { value: _ } => Dropped::Everything,
            TurnDeed::SeeBox | TurnDeed::Post | TurnDeed::GiveTurn { .. } => Dropped::Nothing,
            TurnDeed::SeeFull { .. } | TurnDeed::EmptyBox { .. } => Dropped::Nothing,
            TurnDeed::RaiseDurable { .. } => Dropped::Nothing,
        }
    }

    fn page_drops(&self, z: &Setup, view: &View, deed: &PageDeed) -> Dropped
        ensures { Drops z.now (of_page deed.now) self.now view.now result }
    {
        match deed {
            PageDeed::Evict { page } => {
                let evicts = view.would_evict(*page, load(&self.entries, *page));
                dropped_if(evicts, Dropped::OfPage(*page))
            }
            PageDeed::Show { page, frame: _ } => Dropped::OfPage(*page),
            PageDeed::Entry { .. } | PageDeed::Pin { .. } => Dropped::Nothing,
            PageDeed::Unpin { .. } | PageDeed::Touch { .. } => Dropped::Nothing,
            PageDeed::LoadTouch { .. } | PageDeed::Fill { .. } => Dropped::Nothing,
        }
    }
}

// This is dropped, or nothing.
fn dropped_if(drops: bool, dropped: Dropped) -> Dropped
    ensures { (read : List (ℕ × ℕ)) → dropped_from result read
        ≡ (if drops then dropped_from dropped read else read) }
{
    if drops { dropped } else { Dropped::Nothing }
}
