//! The words of each cell of a bundle, and how many cells it takes.

ghost use Rattle.dude_base.specs.Records.{HasNumbers};
ghost use Rattle.redo_record.specs.Encoding.{encoded, write_or_zeros};
ghost use Rattle.redo_record.specs.Record.{cells_for};
ghost use Rattle.redo_record.specs.Tags.{IsNumber, head_tag, continuation_tag};
ghost use Rattle.std.specs.Prelude.{◌≡◌, ◌==◌, ◌<◌, ◌≤◌, length, if◌then◌else◌};

use crate::tag::{CONTINUATION_KIND, HEAD_KIND};
use dude_base::bundle::Bundle;
use dude_base::limits::{LINE, MAX_BUNDLE_WRITES};
use dude_base::write::Write;

/// How many writes a cell holds.
pub const CELL_WRITES: u64 = 3;

/// How many cells a bundle takes at most.
pub const RECORD_CELLS: u64 = MAX_BUNDLE_WRITES / CELL_WRITES;

/// What one number more counts in word 1 of a head; the rest is the count of writes.
pub const SPAN_UNIT: u64 = 256;

/// How many cells so many writes take: one at least.
pub fn cells_for(count: u64) -> u64
    ensures cells { result ≡ cells_for count }
    ensures some { 1 ≤ result }
    ensures few { count ≤ MAX_BUNDLE_WRITES → result ≤ RECORD_CELLS }
{
    count.div_ceil(CELL_WRITES).max(1)
}

/// How many cells a bundle takes.
pub fn cells_of(b: &Bundle) -> u64
    ensures cells { result ≡ cells_for (length b.now.writes) }
    ensures some { 1 ≤ result }
    ensures few { result ≤ RECORD_CELLS }
{
    cells_for(b.len())
}

/// Gives the words of one cell of a bundle. Cell 0 is its head.
pub fn encode(b: &Bundle, cell: u64, into: &mut [u64; LINE as usize])
    requires numbers { HasNumbers b.now }
    requires cell { cell < cells_for (length b.now.writes) }
    ensures { into.new ≡ encoded b.now cell }
{
    let writes = b.len();
    let tag = tag_of_cell(b.last(), cell);
    let count = if cell == 0 {
        writes + SPAN_UNIT * (b.last() - b.first())
    } else {
        cell
    };
    let first = write_or_none(b, 3 * cell);
    let second = write_or_none(b, 3 * cell + 1);
    let third = write_or_none(b, 3 * cell + 2);
    *into = [
        tag,
        count,
        first.at,
        first.value,
        second.at,
        second.value,
        third.at,
        third.value,
    ];
}

fn tag_of_cell(number: u64, cell: u64) -> u64
    requires { IsNumber number }
    ensures { result ≡ (if cell == 0 then head_tag number else continuation_tag number) }
{
    if cell == 0 {
        HEAD_KIND + number
    } else {
        CONTINUATION_KIND + number
    }
}

// Write `k` of a bundle, or zeros where it has none.
fn write_or_none(b: &Bundle, k: u64) -> Write
    ensures { result ≡ write_or_zeros b.now.writes k }
{
    if k < b.len() {
        b.write_at(k)
    } else {
        Write { at: 0, value: 0 }
    }
}
