//! What becomes of a view by its events.

ghost use Rattle.core_events.specs.Conditions.{May};
ghost use Rattle.core_events.specs.Events.{name};
ghost use Rattle.core_events.specs.Telling.{IsSeated, WordTold};
ghost use Rattle.dude_core.specs.Moves.{Advances};
ghost use Rattle.dude_core.specs.Named.{word_of, event_of};
ghost use Rattle.std.specs.Prelude.{◌≡◌};

use crate::deed::Deed;
use crate::paging::page;
use crate::reading::read;
use crate::setup::Setup;
use crate::turning::turn;
use crate::view::View;
use crate::word::Word;
use crate::writing::write;
use std::alloc::{AllocError, Global};

/// Makes the event, where it found this in its word.
pub fn advance(
    view: &mut View,
    alloc: Global,
    z: &Setup,
    deed: &Deed,
    word: Word,
    found: u64,
) -> Result<(), AllocError>
    requires told { WordTold z.now (event_of deed.now) view.old found }
    requires seated { IsSeated z.now view.old }
    requires may { May z.now (event_of deed.now) view.old }
    requires name { word_of word ≡ name z.now (event_of deed.now) view.old }
    ensures { Advances result z.now (event_of deed.now) view.old found view.new }
{
    match deed {
        Deed::Read(deed) => read(view, alloc, z, deed, word, found),
        Deed::Write(deed) => write(view, alloc, z, deed, word, found),
        Deed::Turn(deed) => turn(view, z, deed, word, found),
        Deed::Page(deed) => page(view, z, deed, found),
    }
}
