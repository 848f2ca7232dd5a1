//! Where a view allows an event.

ghost use Rattle.core_events.specs.Conditions.{May};
ghost use Rattle.dude_core.specs.Named.{Tells, event_of};

use crate::deed::Deed;
use crate::pages::may_page;
use crate::reads::may_read;
use crate::setup::Setup;
use crate::turns::may_turn;
use crate::view::View;
use crate::writes::may_write;

/// Whether the view may make the event.
pub fn may(view: &View, z: &Setup, deed: &Deed) -> bool
    ensures { Tells result (May z.now (event_of deed.now) view.now) }
{
    match deed {
        Deed::Read(deed) => may_read(view, z, deed),
        Deed::Write(deed) => may_write(view, z, deed),
        Deed::Turn(deed) => may_turn(view, z, deed),
        Deed::Page(deed) => may_page(view, z, deed),
    }
}
