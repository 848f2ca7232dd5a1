//! Where a view allows the events of a transaction that reads.

ghost use Rattle.core_events.specs.Conditions.{May, IsRecheck};
ghost use Rattle.core_events.specs.Events.{number, begin, extend, look, load, check, finish};
ghost use Rattle.dude_core.specs.Held.{WaitsFor};
ghost use Rattle.dude_core.specs.Named.{Tells, of_read};

use crate::deed::ReadDeed;
use crate::setup::Setup;
use crate::view::View;
use dude_base::limits::PAGE;

/// Whether the view may make the event.
pub(crate) fn may_read(view: &View, z: &Setup, deed: &ReadDeed) -> bool
    ensures { Tells result (May z.now (of_read deed.now) view.now) }
{
    match deed {
        ReadDeed::Number => may_number(view, z),
        ReadDeed::Begin => may_begin(view, z),
        ReadDeed::Extend => may_extend(view, z),
        ReadDeed::Look { lock } => may_look(view, z, *lock),
        ReadDeed::Load { at } => may_load(view, z, *at),
        ReadDeed::Check { lock } => may_check(view, z, *lock),
        ReadDeed::Finish { about: _ } => may_finish(view, z),
    }
}

fn may_number(view: &View, z: &Setup) -> bool
    ensures { Tells result (May z.now number view.now) }
{
    !view.part.is_spent && view.part.thread.is_none()
}

fn may_begin(view: &View, z: &Setup) -> bool
    ensures { Tells result (May z.now begin view.now) }
{
    view.is_awake() && view.is_idle()
}

fn may_extend(view: &View, z: &Setup) -> bool
    ensures { Tells result (May z.now extend view.now) }
{
    view.is_awake() && view.is_undrawn()
}

fn may_look(view: &View, z: &Setup, lock: u64) -> bool
    ensures { Tells result (May z.now (look lock) view.now) }
{
    view.is_awake() && lock < z.locks() && view.is_steady()
}

fn may_load(view: &View, z: &Setup, at: u64) -> bool
    ensures { Tells result (May z.now (load at) view.now) }
{
    view.is_awake()
        && at < z.pages() * PAGE
        && view.is_steady()
        && view.looks_good(z.lock_of(at))
        && view.pins(at / PAGE)
}

fn may_check(view: &View, z: &Setup, lock: u64) -> bool
    ensures { Tells result (May z.now (check lock) view.now) }
{
    view.is_awake() && lock < z.locks() && (waits_for(view, z, lock) || is_recheck(view, z, lock))
}

// A value waits for the second look at this lock.
fn waits_for(view: &View, z: &Setup, lock: u64) -> bool
    ensures { Tells result (WaitsFor z.now view.now.tx lock) }
{
    match view.tx.loaded {
        Some((at, _)) => lock == z.lock_of(at),
        None => false,
    }
}

fn is_recheck(view: &View, z: &Setup, lock: u64) -> bool
    ensures { Tells result (IsRecheck z.now lock view.now.tx) }
{
    view.tx.loaded.is_none()
        && view.tx.reads.has_lock(z, lock)
        && (view.tx.extension.is_some() || view.is_undecided())
}

fn may_finish(view: &View, z: &Setup) -> bool
    ensures { (a : _) → Tells result (May z.now (finish a) view.now) }
{
    view.is_awake() && view.is_steady() && view.tx.owned.is_empty() && view.paging.pins.is_empty()
}
