//! The calls on the medium that append a bundle, as a list.

ghost use Rattle.dude_base.specs.Image.{cell_at};
ghost use Rattle.dude_base.specs.Records.{HasNumbers};
ghost use Rattle.redo_record.specs.Calls.{append_calls, body_writes, lines_from, record_writes, tag_write};
ghost use Rattle.redo_record.specs.Cells.{line_of};
ghost use Rattle.redo_record.specs.Record.{cells_for};
ghost use Rattle.std.specs.List.{enumerate_from};
ghost use Rattle.std.specs.Prelude.{◌≡◌, ◌+◌, ◌*◌, ◌^◌, ◌<◌, ◌≤◌, ◌++◌, [], ◌∷◌, Some, length, slice_get, take};

use crate::cells::start_after;
use crate::encoding::{RECORD_CELLS, cells_of, encode};
use crate::group_call::group_call;
use dude_base::bundle::Bundle;
use dude_base::limits::LINE;
use dude_base::place::Place;
use pmem_trait::Call;

/// How many words the cells of a bundle have at most.
const RECORD_WORDS: usize = (LINE * RECORD_CELLS) as usize;

// Sets the pairs of one cell: each of its words, by its number and its value.
fn set_cell(
    pairs: &mut [(u64, u64); RECORD_WORDS],
    cell: u64,
    start: u64,
    words: &[u64; LINE as usize],
)
    requires cell { cell < RECORD_CELLS }
    requires start { start + LINE ≤ 2 ^ 64 }
    ensures size { length pairs.new ≡ 256 }
    ensures pairs { take (LINE * (cell + 1)) pairs.new
        ≡ take (LINE * cell) pairs.old ++ enumerate_from start words.now }
{
    for j in 0..LINE {
        pairs[(LINE * cell + j) as usize] = (start + j, words[j as usize]);
    }
}

// Sets the pairs of the bundle's cells: their words, each by its number and its value.
fn set_pairs(
    pairs: &mut [(u64, u64); RECORD_WORDS],
    place: &Place,
    ring: u64,
    head: u64,
    b: &Bundle,
)
    requires ring { ring < place.now.rings }
    requires head { head < place.now.cells }
    requires numbers { HasNumbers b.now }
    ensures size { length pairs.new ≡ 256 }
    ensures pairs { take (LINE * cells_for (length b.now.writes)) pairs.new
        ≡ record_writes place.now (cell_at ring head) b.now }
{
    let mut words = [0; LINE as usize];
    for cell in 0..cells_of(b) {
        encode(b, cell, &mut words);
        set_cell(pairs, cell, start_after(place, ring, head, cell), &words);
    }
}

// Sets the lines of so many cells.
fn set_lines(
    lines: &mut [u64; RECORD_CELLS as usize],
    place: &Place,
    ring: u64,
    head: u64,
    cells: u64,
)
    requires ring { ring < place.now.rings }
    requires head { head < place.now.cells }
    requires few { cells ≤ RECORD_CELLS }
    ensures size { length lines.new ≡ 32 }
    ensures lines { take cells lines.new ≡ lines_from place.now (cell_at ring head) cells }
{
    for cell in 0..cells {
        lines[cell as usize] = start_after(place, ring, head, cell) / LINE;
    }
}

/// The calls that append a bundle to its ring, as a list: first all its words but the head's tag are made durable, and then
/// the tag. They take no memory: words and lines stand in arrays.
#[derive(Drop)]
pub struct AppendCalls {
    pairs: [(u64, u64); RECORD_WORDS],
    lines: [u64; RECORD_CELLS as usize],
    cells: u64,
    ghost some: { 1 ≤ cells },
    ghost few: { cells ≤ 32 },
    ghost all_pairs: { length pairs ≡ 256 },
    ghost all_lines: { length lines ≡ 32 },
}

impl AppendCalls {
    ghost use Rattle.redo_record.specs.CallLists.{append_list, body_lines_of, body_of, bundle_lines, tag_line_of, tag_of};

    /// Room for the calls that append a bundle. Which ones it has is set later, and for each bundle anew.
    pub fn room() -> AppendCalls {
        AppendCalls {
            pairs: [(0, 0); RECORD_WORDS],
            lines: [0; RECORD_CELLS as usize],
            cells: 1,
        }
    }

    /// These become the calls that append a bundle whose head is to stand in this slot. Only what that bundle needs of the
    /// room is written.
    pub fn set(&mut self, place: &Place, ring: u64, head: u64, b: &Bundle)
        requires ring { ring < place.now.rings }
        requires head { head < place.now.cells }
        requires numbers { HasNumbers b.now }
        ensures list { append_list self.new ≡ append_calls place.now (cell_at ring head) b.now }
        ensures body { body_of self.new ≡ body_writes place.now (cell_at ring head) b.now }
        ensures lines { body_lines_of self.new ≡ bundle_lines place.now (cell_at ring head) b.now }
        ensures tag { tag_of self.new ≡ tag_write place.now (cell_at ring head) b.now }
        ensures tag_line { tag_line_of self.new ≡ line_of place.now (cell_at ring head) ∷ [] }
    {
        let cells = cells_of(b);
        set_pairs(&mut self.pairs, place, ring, head, b);
        set_lines(&mut self.lines, place, ring, head, cells);
        self.cells = cells;
    }

    /// How many calls there are.
    pub fn len(&self) -> u64
        ensures { result ≡ length (append_list self.now) }
    {
        (LINE + 1) * self.cells + 3
    }

    /// The call at index `k`, counted from 0.
    pub fn get(&self, k: u64) -> Call
        requires { k < length (append_list self.now) }
        ensures { slice_get (append_list self.now) k ≡ Some result }
    {
        let first = (LINE + 1) * self.cells;
        if k < first {
            group_call(self.body(), self.body_lines(), k)
        } else {
            group_call(self.tag(), self.tag_line(), k - first)
        }
    }

    /// The words that are put first, each with its value: all but the head's tag.
    pub fn body(&self) -> &[(u64, u64)]
        ensures { result.now ≡ body_of self.now }
    {
        let words = (LINE * self.cells) as usize;
        &self.pairs[1..words]
    }

    /// The lines that are flushed behind the words put first: those of all cells.
    pub fn body_lines(&self) -> &[u64]
        ensures { result.now ≡ body_lines_of self.now }
    {
        &self.lines[..self.cells as usize]
    }

    /// The tag of the head, with its word.
    pub fn tag(&self) -> &[(u64, u64)]
        ensures { result.now ≡ tag_of self.now }
    {
        &self.pairs[..1]
    }

    /// The line of the head's tag.
    pub fn tag_line(&self) -> &[u64]
        ensures { result.now ≡ tag_line_of self.now }
    {
        &self.lines[..1]
    }
}
