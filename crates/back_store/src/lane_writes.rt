//! The places of a lane's writes: as in the ring, three for each cell.

ghost use Rattle.back_store.specs.Entries.{LeavesOthers, write_place, writes_in};
ghost use Rattle.dude_base.specs.declared.limits.TheConstants.{MAX_BUNDLE_WRITES, MAX_CELLS};
ghost use Rattle.redo_record.specs.Record.{cells_for};
ghost use Rattle.std.specs.Prelude.{◌≡◌, ◌*◌, ◌<◌, ◌≤◌, length};

use dude_base::bundle::Bundle;
use dude_base::write::Write;
use redo_record::CELL_WRITES;

/// Where the write at index `i` stands, of a bundle with its head in this slot of a ring of so many cells.
pub fn write_place(cells: u64, slot: u64, i: u64) -> usize
    requires slot { slot < cells }
    requires cells { cells ≤ MAX_CELLS }
    requires few { i < MAX_BUNDLE_WRITES }
    ensures place { result ≡ write_place cells slot i }
    ensures inside { result < 3 * cells }
{
    (CELL_WRITES * ((slot + i / CELL_WRITES) % cells) + i % CELL_WRITES) as usize
}

/// Puts the writes of a bundle with its head in this slot into their places.
pub fn put_writes(cells: u64, slot: u64, r: &Bundle, writes: &mut [Write])
    requires slot { slot < cells }
    requires cells { cells ≤ MAX_CELLS }
    requires size { length writes.old ≡ 3 * cells }
    requires room { cells_for (length r.now.writes) ≤ cells }
    ensures own { writes_in cells writes.new slot (length r.now.writes) ≡ r.now.writes }
    ensures others { LeavesOthers cells slot (length r.now.writes) writes.old writes.new }
{
    for i in 0..r.len() {
        writes[write_place(cells, slot, i)] = r.write_at(i);
    }
}
