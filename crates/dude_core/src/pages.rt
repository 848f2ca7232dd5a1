//! Where a view allows the events of pages and frames.

ghost use Rattle.core_events.specs.Conditions.{May, IsStoredAndTouched};
ghost use Rattle.core_events.specs.Events.{entry, pin, unpin, touch, load_touch, evict, show};
ghost use Rattle.dude_core.specs.Held.{HasSettledIn};
ghost use Rattle.dude_core.specs.Named.{Tells, filled, of_page};

use crate::deed::PageDeed;
use crate::filling::Filling;
use crate::setup::Setup;
use crate::view::View;
use crate::write_scans::{settled_in, writes_in};
use dude_base::limits::PAGE;

/// Whether the view may make the event.
pub(crate) fn may_page(view: &View, z: &Setup, deed: &PageDeed) -> bool
    ensures { Tells result (May z.now (of_page deed.now) view.now) }
{
    match deed {
        PageDeed::Entry { page } => may_entry(view, z, *page),
        PageDeed::Pin { page } => may_pin(view, z, *page),
        PageDeed::Unpin { page } => may_unpin(view, z, *page),
        PageDeed::Touch { page } => may_touch(view, z, *page),
        PageDeed::LoadTouch { page } => may_load_touch(view, z, *page),
        PageDeed::Evict { page } => may_evict(view, z, *page),
        PageDeed::Fill { filling } => may_fill(view, z, *filling),
        PageDeed::Show { page, frame } => may_show(view, z, *page, *frame),
    }
}

fn may_entry(view: &View, z: &Setup, page: u64) -> bool
    ensures { Tells result (May z.now (entry page) view.now) }
{
    view.is_awake() && page < z.pages() && (view.tx.is_open || view.turn.has_it)
}

fn may_pin(view: &View, z: &Setup, page: u64) -> bool
    ensures { Tells result (May z.now (pin page) view.now) }
{
    view.is_awake()
        && page < z.pages()
        && view.tx.is_open
        && view.keeps_frame(page)
        && view.paging.pins.find(page).is_none()
        && !view.turn.has_it
}

fn may_unpin(view: &View, z: &Setup, page: u64) -> bool
    ensures { Tells result (May z.now (unpin page) view.now) }
{
    view.is_awake()
        && page < z.pages()
        && view.pins(page)
        && !view.is_undecided()
        && is_done_with(view, page)
}

// What a decided number wrote in the page is stored, and the page is touched.
fn is_done_with(view: &View, page: u64) -> bool
    ensures { Tells result (IsStoredAndTouched view.now page) }
{
    !view.tx.hand.decided || has_settled_in(view, page)
}

fn has_settled_in(view: &View, page: u64) -> bool
    ensures { Tells result (HasSettledIn view.now page) }
{
    let hand = &view.tx.hand;
    settled_in(&hand.writes, &hand.stored, &view.paging.touched, page)
}

fn may_touch(view: &View, z: &Setup, page: u64) -> bool
    ensures { Tells result (May z.now (touch page) view.now) }
{
    view.is_awake()
        && page < z.pages()
        && view.tx.hand.decided
        && writes_in(&view.tx.hand.writes, page)
        && view.pins(page)
}

fn may_load_touch(view: &View, z: &Setup, page: u64) -> bool
    ensures { Tells result (May z.now (load_touch page) view.now) }
{
    view.is_awake()
        && page < z.pages()
        && view.turn.has_it
        && view.paging.entries.find(page) == Some(0)
}

fn may_evict(view: &View, z: &Setup, page: u64) -> bool
    ensures { Tells result (May z.now (evict page) view.now) }
{
    view.is_awake() && page < z.pages() && view.turn.has_it && view.keeps_frame(page)
}

fn may_fill(view: &View, z: &Setup, filling: Filling) -> bool
    ensures { Tells result (May z.now (filled filling) view.now) }
{
    view.is_awake()
        && filling.page < z.pages()
        && filling.frame < z.frames()
        && filling.at < z.pages() * PAGE
        && view.turn.has_it
        && filling.at / PAGE == filling.page
        && view.turn.touches.has_key(filling.page)
}

fn may_show(view: &View, z: &Setup, page: u64, frame: u64) -> bool
    ensures { Tells result (May z.now (show page frame) view.now) }
{
    view.is_awake()
        && page < z.pages()
        && frame < z.frames()
        && view.turn.has_it
        && view.turn.filled.has_page(page, frame)
}
