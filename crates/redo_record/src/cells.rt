//! Cells that follow one another in a ring; after the last one comes the first.

ghost use Rattle.dude_base.specs.Image.{image_words, cell_start, cell_at};
ghost use Rattle.redo_record.specs.Cells.{cell_after};
ghost use Rattle.redo_record.specs.RingLaws.{slot_after};
ghost use Rattle.std.specs.Prelude.{◌≡◌, ◌+◌, ◌<◌, ◌≤◌};

use dude_base::limits::{LINE, MAX_CELLS};
use dude_base::place::Place;

/// The slot that comes `steps` after this one.
pub fn slot_after(place: &Place, slot: u64, steps: u64) -> u64
    requires slot { slot < place.now.cells }
    requires steps { steps ≤ MAX_CELLS }
    ensures slot { result ≡ slot_after place.now slot steps }
    ensures inside { result < place.now.cells }
{
    let sizes = place.sizes();
    (slot + steps) % sizes.cells
}

/// The first word of the cell that comes `steps` after the one in this slot.
pub fn start_after(place: &Place, ring: u64, slot: u64, steps: u64) -> u64
    requires ring { ring < place.now.rings }
    requires slot { slot < place.now.cells }
    requires steps { steps ≤ MAX_CELLS }
    ensures start { result ≡ cell_start place.now (cell_after place.now (cell_at ring slot) steps) }
    ensures inside { result + LINE ≤ image_words place.now }
{
    place.cell(ring, slot_after(place, slot, steps))
}
