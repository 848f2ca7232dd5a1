//! Which word an event of a view is a step on.

ghost use Rattle.core_events.specs.Conditions.{May};
ghost use Rattle.core_events.specs.Events.{name, pinned_frame, next_box};
ghost use Rattle.core_events.specs.Setups.{page_of, cell_of};
ghost use Rattle.core_events.specs.Telling.{IsSeated};
ghost use Rattle.dude_core.specs.Named.{word_of, event_of, of_read, of_write, of_turn, of_page};
ghost use Rattle.std.specs.Prelude.{◌≡◌, ◌<◌};

use crate::deed::{Deed, PageDeed, ReadDeed, TurnDeed, WriteDeed};
use crate::setup::Setup;
use crate::view::View;
use crate::word::Word;
use dude_base::limits::PAGE;

/// The word that the event is a step on.
pub fn name(view: &View, z: &Setup, deed: &Deed) -> Word
    requires seated { IsSeated z.now view.now }
    requires may { May z.now (event_of deed.now) view.now }
    ensures { word_of result ≡ name z.now (event_of deed.now) view.now }
{
    match deed {
        Deed::Read(deed) => name_to_read(view, z, deed),
        Deed::Write(deed) => name_to_write(view, z, deed),
        Deed::Turn(deed) => name_to_turn(view, z, deed),
        Deed::Page(deed) => name_to_page(view, z, deed),
    }
}

fn name_to_read(view: &View, z: &Setup, deed: &ReadDeed) -> Word
    requires seated { IsSeated z.now view.now }
    requires may { May z.now (of_read deed.now) view.now }
    ensures { word_of result ≡ name z.now (of_read deed.now) view.now }
{
    match deed {
        ReadDeed::Number => Word::Threads,
        ReadDeed::Begin => Word::Clock,
        ReadDeed::Extend => Word::Clock,
        ReadDeed::Look { lock } => Word::Lock(*lock),
        ReadDeed::Load { at } => Word::Cell(pinned_cell(view, z, *at)),
        ReadDeed::Check { lock } => Word::Lock(*lock),
        ReadDeed::Finish { about: _ } => Word::Threads,
    }
}

fn name_to_write(view: &View, z: &Setup, deed: &WriteDeed) -> Word
    requires seated { IsSeated z.now view.now }
    requires may { May z.now (of_write deed.now) view.now }
    ensures { word_of result ≡ name z.now (of_write deed.now) view.now }
{
    match deed {
        WriteDeed::Take { lock } => Word::Lock(*lock),
        WriteDeed::Draw {
            about: _,
            writes: _,
        } => Word::Clock,
        WriteDeed::Decide => Word::Lock(view.tx.owned.first_key()),
        WriteDeed::Store { at } => Word::Cell(pinned_cell(view, z, *at)),
        WriteDeed::Release { lock } => Word::Lock(*lock),
        WriteDeed::Restore { lock } => Word::Lock(*lock),
    }
}

fn name_to_turn(view: &View, z: &Setup, deed: &TurnDeed) -> Word
    requires seated { IsSeated z.now view.now }
    requires may { May z.now (of_turn deed.now) view.now }
    ensures { word_of result ≡ name z.now (of_turn deed.now) view.now }
{
    match deed {
        TurnDeed::SeeBox => Word::Box(view.next_box(z)),
        TurnDeed::Post => Word::Box(view.next_box(z)),
        TurnDeed::TakeTurn => Word::Turn,
        TurnDeed::GiveTurn { failed: _ } => Word::Turn,
        TurnDeed::SeeFull { thread, place } => Word::Box(z.box_of(*thread, *place)),
        TurnDeed::EmptyBox { thread, place } => Word::Box(z.box_of(*thread, *place)),
        TurnDeed::RaiseDurable { value: _ } => Word::Durable,
        TurnDeed::RaiseReproduced { value: _ } => Word::Reproduced,
    }
}

fn name_to_page(view: &View, z: &Setup, deed: &PageDeed) -> Word
    requires may { May z.now (of_page deed.now) view.now }
    ensures { word_of result ≡ name z.now (of_page deed.now) view.now }
{
    match deed {
        PageDeed::Entry { page } => Word::Entry(*page),
        PageDeed::Pin { page } => Word::Entry(*page),
        PageDeed::Unpin { page } => Word::Entry(*page),
        PageDeed::Touch { page } => Word::Touch(*page),
        PageDeed::LoadTouch { page } => Word::Touch(*page),
        PageDeed::Evict { page } => Word::Entry(*page),
        PageDeed::Fill { filling } => Word::Cell(z.cell_of(filling.frame, filling.at)),
        PageDeed::Show { page, frame: _ } => Word::Entry(*page),
    }
}

// The frame word of a home word whose page is pinned.
fn pinned_cell(view: &View, z: &Setup, at: u64) -> u64
    requires { pinned_frame view.now (page_of at) < z.now.frames }
    ensures { result ≡ cell_of (pinned_frame view.now (page_of at)) at }
{
    z.cell_of(view.pinned_frame(at / PAGE), at)
}
