//! Where a view allows the events of boxes and of the turn.

ghost use Rattle.core_events.specs.Conditions.{May};
ghost use Rattle.core_events.specs.Events.{see_box, post, take_turn, give_turn, see_full, empty_box, raise_durable, raise_reproduced};
ghost use Rattle.dude_core.specs.Named.{Tells, of_turn};

use crate::deed::TurnDeed;
use crate::setup::Setup;
use crate::view::View;

/// Whether the view may make the event.
pub(crate) fn may_turn(view: &View, z: &Setup, deed: &TurnDeed) -> bool
    ensures { Tells result (May z.now (of_turn deed.now) view.now) }
{
    match deed {
        TurnDeed::SeeBox => may_see_box(view, z),
        TurnDeed::Post => may_post(view, z),
        TurnDeed::SeeFull { thread, place } => may_see_full(view, z, *thread, *place),
        TurnDeed::EmptyBox { thread, place } => may_empty_box(view, z, *thread, *place),
        TurnDeed::TakeTurn => may_take_turn(view, z),
        TurnDeed::GiveTurn { failed } => may_give_turn(view, z, *failed),
        TurnDeed::RaiseDurable { value: _ } => may_raise_durable(view, z),
        TurnDeed::RaiseReproduced { value: _ } => may_raise_reproduced(view, z),
    }
}

fn may_see_box(view: &View, z: &Setup) -> bool
    ensures { Tells result (May z.now see_box view.now) }
{
    view.is_awake() && view.is_idle()
}

fn may_post(view: &View, z: &Setup) -> bool
    ensures { Tells result (May z.now post view.now) }
{
    view.is_awake()
        && (view.tx.hand.decided || view.tx.hand.void)
        && view.tx.owned.is_empty()
        && view.paging.pins.is_empty()
}

fn may_take_turn(view: &View, z: &Setup) -> bool
    ensures { Tells result (May z.now take_turn view.now) }
{
    view.is_awake() && !view.turn.has_it && view.paging.pins.is_empty()
}

// With a fault a turn ends only where the setup lets it.
fn may_give_turn(view: &View, z: &Setup, failed: bool) -> bool
    ensures { Tells result (May z.now (give_turn failed) view.now) }
{
    view.is_awake() && view.turn.has_it && (!failed || z.may_fail())
}

fn may_see_full(view: &View, z: &Setup, thread: u64, place: u64) -> bool
    ensures { Tells result (May z.now (see_full thread place) view.now) }
{
    view.is_awake() && thread < z.threads() && place < z.boxes() && view.turn.has_it
}

fn may_empty_box(view: &View, z: &Setup, thread: u64, place: u64) -> bool
    ensures { Tells result (May z.now (empty_box thread place) view.now) }
{
    view.is_awake() && thread < z.threads() && place < z.boxes() && view.turn.has_it
}

fn may_raise_durable(view: &View, z: &Setup) -> bool
    ensures { (x : _) → Tells result (May z.now (raise_durable x) view.now) }
{
    view.is_awake() && view.turn.has_it
}

fn may_raise_reproduced(view: &View, z: &Setup) -> bool
    ensures { (x : _) → Tells result (May z.now (raise_reproduced x) view.now) }
{
    view.is_awake() && view.turn.has_it
}
