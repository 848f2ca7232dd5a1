//! What becomes of a view by the events of pages and frames.

ghost use Rattle.core_events.specs.Conditions.{May};
ghost use Rattle.core_events.specs.Events.{entry, pin, load_touch, evict, show};
ghost use Rattle.core_events.specs.Setups.{page_of};
ghost use Rattle.dude_core.specs.Moves.{Advances, replaced};
ghost use Rattle.dude_core.specs.Named.{filled, of_page};
ghost use Rattle.std.specs.Prelude.{◌≡◌, ◌<◌, OnOk, OnErr};

use crate::deed::PageDeed;
use crate::filling::Filling;
use crate::setup::{Setup, frame_in};
use crate::view::View;
use crate::word::Word;
use std::alloc::AllocError;

/// Makes an event of a page or of a frame, where it found this in its word.
pub(crate) fn page(
    view: &mut View,
    z: &Setup,
    deed: &PageDeed,
    found: u64,
) -> Result<(), AllocError>
    requires { May z.now (of_page deed.now) view.old }
    ensures { Advances result z.now (of_page deed.now) view.old found view.new }
{
    match deed {
        PageDeed::Entry { page } => see_entry(view, z, *page, found),
        PageDeed::Pin { page } => pin(view, z, *page, found),
        PageDeed::Unpin { page } => {
            view.paging.pins.remove(*page);
            Ok(())
        }
        PageDeed::Touch { page } => {
            view.paging.touched.put_first(*page)?;
            Ok(())
        }
        PageDeed::LoadTouch { page } => load_touch(view, z, *page, found),
        PageDeed::Evict { page } => evict(view, z, *page, found),
        PageDeed::Fill { filling } => fill(view, z, *filling, found),
        PageDeed::Show { page, frame } => show(view, z, *page, *frame, found),
    }
}

fn see_entry(view: &mut View, z: &Setup, page: u64, found: u64) -> Result<(), AllocError>
    ensures { Advances result z.now (entry page) view.old found view.new }
{
    view.paging.entries.put_first(page, found)?;
    view.notice(Word::Entry(page), found);
    Ok(())
}

fn pin(view: &mut View, z: &Setup, page: u64, found: u64) -> Result<(), AllocError>
    ensures { Advances result z.now (pin page) view.old found view.new }
{
    if found == view.kept_entry(page) {
        view.paging.pins.put_first(page, frame_in(found))?;
        return Ok(());
    }
    see_entry(view, z, page, found)?;
    Ok(())
}

fn load_touch(view: &mut View, z: &Setup, page: u64, found: u64) -> Result<(), AllocError>
    ensures { Advances result z.now (load_touch page) view.old found view.new }
{
    view.turn.touches.put_first(page, found)?;
    view.notice(Word::Touch(page), found);
    Ok(())
}

// This is the entry kept of the page now, and what was kept of the page in the turn is dropped.
fn replace(view: &mut View, page: u64, entry: u64) -> Result<(), AllocError>
    ensures ok { OnOk result (view.new ≡ replaced page entry view.old) }
    ensures err { OnErr result (view.new ≡ view.old) }
{
    view.paging.entries.put_first(page, entry)?;
    view.turn.touches.remove(page);
    view.turn.filled.remove_page(page);
    Ok(())
}

fn evict(view: &mut View, z: &Setup, page: u64, found: u64) -> Result<(), AllocError>
    ensures { Advances result z.now (evict page) view.old found view.new }
{
    if view.would_evict(page, found) {
        replace(view, page, 0)?;
        return Ok(());
    }
    see_entry(view, z, page, found)?;
    Ok(())
}

// Filling another page into a frame drops what was filled there.
fn fill(view: &mut View, z: &Setup, filling: Filling, found: u64) -> Result<(), AllocError>
    requires { page_of filling.at ≡ filling.page }
    ensures { Advances result z.now (filled filling) view.old found view.new }
{
    view.turn
        .filled
        .fill(filling.page, filling.frame, filling.at)
}

fn show(view: &mut View, z: &Setup, page: u64, frame: u64, found: u64) -> Result<(), AllocError>
    requires { frame < z.now.frames }
    ensures { Advances result z.now (show page frame) view.old found view.new }
{
    replace(view, page, z.entry_of(frame))?;
    Ok(())
}
