//! Where a view allows the events of a transaction that writes.

ghost use Rattle.core_events.specs.Conditions.{May};
ghost use Rattle.core_events.specs.Events.{take, draw, decide, store, release, restore};
ghost use Rattle.dude_core.specs.Held.{Holds, HoldsAll, HasStoredUnder};
ghost use Rattle.dude_core.specs.Named.{Tells, of_write};

use crate::deed::WriteDeed;
use crate::setup::Setup;
use crate::view::View;
use crate::write_scans::stored_under;
use dude_base::limits::PAGE;
use dude_base::write::Write;
use dude_base::write_list::WriteList;

/// Whether the view may make the event.
pub(crate) fn may_write(view: &View, z: &Setup, deed: &WriteDeed) -> bool
    ensures { Tells result (May z.now (of_write deed.now) view.now) }
{
    match deed {
        WriteDeed::Take { lock } => may_take(view, z, *lock),
        WriteDeed::Draw { about: _, writes } => may_draw(view, z, writes),
        WriteDeed::Decide => may_decide(view, z),
        WriteDeed::Store { at } => may_store(view, z, *at),
        WriteDeed::Release { lock } => may_release(view, z, *lock),
        WriteDeed::Restore { lock } => may_restore(view, z, *lock),
    }
}

fn may_take(view: &View, z: &Setup, lock: u64) -> bool
    ensures { Tells result (May z.now (take lock) view.now) }
{
    view.is_awake() && lock < z.locks() && view.is_steady() && view.looks_unowned(lock)
}

fn may_draw(view: &View, z: &Setup, writes: &WriteList) -> bool
    ensures { (a : _) → Tells result (May z.now (draw a writes.now) view.now) }
{
    view.is_awake()
        && view.is_steady()
        && 0 < writes.len()
        && view.boxes.is_empty
        && 0 < view.draws
        && holds_all(view, z, writes)
}

// Each write is of a home word whose lock is owned and whose page is pinned.
fn holds_all(view: &View, z: &Setup, writes: &WriteList) -> bool
    ensures { Tells result (HoldsAll z.now view.now writes.now) }
{
    for k in 0..writes.len() {
        if !holds(view, z, writes.get(k)) {
            return false;
        }
    }
    true
}

fn holds(view: &View, z: &Setup, w: Write) -> bool
    ensures { Tells result (Holds z.now view.now w) }
{
    w.at < z.pages() * PAGE && view.owns(z.lock_of(w.at)) && view.pins(w.at / PAGE)
}

fn may_decide(view: &View, z: &Setup) -> bool
    ensures { Tells result (May z.now decide view.now) }
{
    view.is_awake() && view.is_undecided() && view.tx.reads.all_found(z, &view.tx.checked)
}

fn may_store(view: &View, z: &Setup, at: u64) -> bool
    ensures { Tells result (May z.now (store at) view.now) }
{
    view.is_awake()
        && at < z.pages() * PAGE
        && view.tx.hand.decided
        && view.writes_to(at)
        && view.owns(z.lock_of(at))
        && view.pins(at / PAGE)
}

fn may_release(view: &View, z: &Setup, lock: u64) -> bool
    ensures { Tells result (May z.now (release lock) view.now) }
{
    view.is_awake()
        && lock < z.locks()
        && view.tx.hand.decided
        && view.owns(lock)
        && has_stored_under(view, z, lock)
}

fn has_stored_under(view: &View, z: &Setup, lock: u64) -> bool
    ensures { Tells result (HasStoredUnder z.now view.now lock) }
{
    stored_under(&view.tx.hand.writes, &view.tx.hand.stored, z, lock)
}

fn may_restore(view: &View, z: &Setup, lock: u64) -> bool
    ensures { Tells result (May z.now (restore lock) view.now) }
{
    view.is_awake()
        && lock < z.locks()
        && view.owns(lock)
        && (view.tx.hand.void || view.tx.hand.number == 0)
}
