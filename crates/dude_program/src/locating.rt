//! Subscribers in a range of locations, found by the index of an image or, without one, in its tables.

ghost use Rattle.dude_base.specs.declared.limits.TheConstants.{PAGE};
ghost use Rattle.std.specs.Prelude.{◌≡◌, ◌<◌, ◌*◌, ◌^◌, length, IfOk};
ghost use Rattle.tatp_core.specs.Located.{LocatesIn};
ghost use Rattle.tatp_layout.specs.StandsFor.{IsLawful};

use std::alloc::{AllocError, Global};
use tatp_check::tables_of;
use tatp_core::{locate_among, locate_rows};
use tatp_layout::Layout;
use word_space::flat::Flat;

/// A range of locations, and how many subscribers are asked for at most.
#[derive(Clone, Copy)]
pub struct LocationRange {
    pub low: u64,
    pub high: u64,
    pub limit: u64,
}

/// The number and the location of each subscriber in the range, by location and then by number, from the words of a home.
pub fn find_located(
    alloc: Global,
    lay: &Layout,
    words: Vec<u64>,
    range: LocationRange,
) -> Result<Vec<(u64, u64)>, AllocError>
    requires size { length words.items ≡ lay.now.pages * PAGE }
    requires lawful { IsLawful lay.now words.items }
    requires low { range.low < 2 ^ 32 }
    requires high { range.high < 2 ^ 32 }
    ensures { IfOk result (λ found.
        LocatesIn lay.now range.low range.high range.limit words.items found.items) }
{
    let LocationRange { low, high, limit } = range;
    if lay.index().is_none() {
        let tables = tables_of(alloc, lay, &words)?;
        return locate_among(alloc, &tables.subscribers, low, high, limit);
    }
    let mut home = Flat::new(words);
    match locate_rows(alloc, lay, &mut home, low, high, limit) {
        Ok(found) => Ok(found),
        Err(_) => Err(AllocError),
    }
}
