//! The lists of the state at its start.

ghost use Rattle.core_events.specs.Conditions.{no_record};
ghost use Rattle.core_events.specs.Partings.{first_entries};
ghost use Rattle.core_events.specs.Setups.{entry_with};
ghost use Rattle.dude_base.specs.declared.limits.TheConstants.{PAGE as PAGE_WORDS, MAX_NUMBER};
ghost use Rattle.dude_core.specs.Views.{first_view};
ghost use Rattle.std.specs.Prelude.{◌≡◌, ◌∷◌, [], ◌*◌, ◌≤◌, ◌^◌, replicate, take, length, IfOk, if◌then◌else◌, ltb};

use crate::setup::Setup;
use crate::view::View;
use dude_base::limits::{MAX_NUMBER, PAGE};
use dude_base::redo::Redo;
use std::alloc::{AllocError, Global};

/// The entries of the pages: the first are in frames, without pins, and the others are absent.
pub(crate) fn first_entries(alloc: Global, z: &Setup) -> Result<Vec<u64>, AllocError>
    ensures { IfOk result (λ entries. entries.items ≡ first_entries z.now.frames 0 z.now.pages) }
{
    let mut entries = Vec::new(alloc);
    for page in 0..z.pages() {
        entries.push(first_entry(z, page))?;
    }
    Ok(entries)
}

fn first_entry(z: &Setup, page: u64) -> u64
    ensures { result ≡ (if ltb page z.now.frames then entry_with page 0 else 0) }
{
    if page < z.frames() {
        z.entry_of(page)
    } else {
        0
    }
}

/// The words of the frames: the home words of the first pages.
pub(crate) fn first_cells(alloc: Global, z: &Setup) -> Result<Vec<u64>, AllocError>
    requires frames { z.now.frames ≤ 2 ^ 32 }
    requires words { z.now.frames * PAGE_WORDS ≤ length z.now.opening }
    ensures { IfOk result (λ cells. cells.items ≡ take (z.now.frames * PAGE_WORDS) z.now.opening) }
{
    let mut cells = Vec::new(alloc);
    for at in 0..z.frames() * PAGE {
        cells.push(z.opening(at))?;
    }
    Ok(cells)
}

/// The first view alone, with all draws and all splits.
pub(crate) fn first_views(alloc: Global, z: &Setup) -> Result<Vec<View>, AllocError>
    requires { z.now.first ≤ MAX_NUMBER }
    ensures { IfOk result (λ views. views.items ≡ first_view z.now ∷ []) }
{
    let mut views = Vec::new(alloc);
    views.push(View::newcomer(alloc, z, z.threads() - 1, MAX_NUMBER - z.first()))?;
    Ok(views)
}

/// So many records without a number.
pub(crate) fn empty_records(alloc: Global, count: u64) -> Result<Vec<Redo>, AllocError>
    ensures { IfOk result (λ records. records.items ≡ replicate count no_record) }
{
    let mut records = Vec::new(alloc);
    for _ in 0..count {
        records.push(Redo::new(0))?;
    }
    Ok(records)
}
