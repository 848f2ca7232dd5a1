//! Whether a run fits a store.

ghost use Rattle.dude_base.specs.Sizes.{IsFrom};
ghost use Rattle.std.specs.Prelude.{◌↔◌, IsTrue};
ghost use Rattle.tiny_stm.specs.Fitting.{FitsStore};

use dude_base::limits::{MAX_BOXES, MAX_LOCKS, MIN_FRAMES};
use dude_base::run::Run;

/// Whether a run with so many threads fits a store with so many rings and pages.
pub(crate) fn fits(run: &Run, threads: u64, rings: u64, pages: u64) -> bool
    ensures { IsTrue result ↔ FitsStore rings pages run.now threads }
{
    is_from(1, rings, threads)
        && is_from(MIN_FRAMES.min(pages), pages, run.frames)
        && is_from(1, MAX_LOCKS, run.locks)
        && is_from(1, MAX_BOXES, run.boxes)
}

fn is_from(least: u64, most: u64, x: u64) -> bool
    ensures { IsTrue result ↔ IsFrom least most x }
{
    least <= x && x <= most
}
