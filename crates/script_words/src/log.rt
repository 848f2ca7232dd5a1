//! The cells of the rings. A cell is named by its number from the first cell of the first ring on.

ghost use Rattle.std.specs.Prelude.{◌<◌, IfSome};

use crate::shape::Shape;

/// The word at this place, or 0 past the end.
pub fn word_at(image: &[u64], at: u64) -> u64 {
    if at < image.len() as u64 {
        image[at as usize]
    } else {
        0
    }
}

/// A word of the cell so many steps after this one, in the same ring.
fn cell_word(image: &[u64], shape: &Shape, cell: u64, steps: u64, word: u64) -> u64
    requires cell { cell < 65536 }
    requires steps { steps < 32 }
    requires word { word < 8 }
{
    let slot = cell % shape.cells;
    word_at(
        image,
        16 + 8 * (cell - slot + (slot + steps) % shape.cells) + word,
    )
}

/// The last number of the head at a cell, 0 where there is none.
pub fn last_number(image: &[u64], shape: &Shape, cell: u64) -> u64
    requires { cell < 65536 }
{
    let tag = cell_word(image, shape, cell, 0, 0);
    if tag >> 62 == 1 { tag % (1 << 62) } else { 0 }
}

/// The first number of a head; 0 where it names more numbers than there are before its last one.
pub fn first_number(image: &[u64], shape: &Shape, head: u64) -> u64
    requires { head < 65536 }
{
    let last = last_number(image, shape, head);
    let before = cell_word(image, shape, head, 0, 1) / 256;
    if before < last { last - before } else { 0 }
}

/// How many writes a head counts.
pub fn count(image: &[u64], shape: &Shape, head: u64) -> u64
    requires { head < 65536 }
    ensures { result < 256 }
{
    cell_word(image, shape, head, 0, 1) % 256
}

/// A write of the record of a head: a home word and its value.
pub fn write(image: &[u64], shape: &Shape, head: u64, k: u64) -> (u64, u64)
    requires head { head < 65536 }
    requires few { k < 96 }
{
    let word = 2 + 2 * (k % 3);
    (
        cell_word(image, shape, head, k / 3, word),
        cell_word(image, shape, head, k / 3, word + 1),
    )
}

// Whether the numbers and the count of a head are ones that the version allows, all numbers over the mark.
fn is_allowed(image: &[u64], shape: &Shape, head: u64, mark: u64) -> bool
    requires { head < 65536 }
{
    let word = cell_word(image, shape, head, 0, 1);
    let count = count(image, shape, head);
    last_number(image, shape, head) < 1 << 48
        && word < 65536
        && first_number(image, shape, head) > mark
        && count <= 96
        && (shape.version == 2 || word <= 24)
        && count.div_ceil(3).max(1) <= shape.cells
}

// Whether one of the first writes of the record of a head, so many of them, is of this home word.
fn is_written_before(image: &[u64], shape: &Shape, head: u64, count: u64, at: u64) -> bool
    requires head { head < 65536 }
    requires few { count < 97 }
{
    for k in 0..count {
        if write(image, shape, head, k).0 == at {
            return true;
        }
    }
    false
}

// Whether the cells behind a head go on with its record, and its writes are of distinct home words.
fn is_complete(image: &[u64], shape: &Shape, head: u64, mark: u64) -> bool
    requires { head < 65536 }
{
    if !is_allowed(image, shape, head, mark) {
        return false;
    }
    let number = last_number(image, shape, head);
    for k in 0..count(image, shape, head).min(96) {
        let step = k / 3;
        if step > 0
            && (cell_word(image, shape, head, step, 0).wrapping_sub(2 << 62) != number
                || cell_word(image, shape, head, step, 1) != step)
        {
            return false;
        }
        let (at, _) = write(image, shape, head, k);
        if at >= shape.home || is_written_before(image, shape, head, k, at) {
            return false;
        }
    }
    true
}

/// The first cell with a head over the mark that covers this number.
pub fn head_of(image: &[u64], shape: &Shape, mark: u64, number: u64) -> Option<u64>
    ensures { IfSome result (λ cell. cell < 65536) }
{
    for cell in 0..shape.all_cells {
        let last = last_number(image, shape, cell);
        if last > mark && first_number(image, shape, cell) <= number && number <= last {
            return Some(cell);
        }
    }
    None
}

// Whether a head before this one covers one of its numbers.
fn is_duplicate(image: &[u64], shape: &Shape, mark: u64, head: u64) -> bool
    requires { head < 65536 }
{
    let (first, last) = (
        first_number(image, shape, head),
        last_number(image, shape, head),
    );
    for cell in 0..head {
        let other = last_number(image, shape, cell);
        if other > mark && other >= first && first_number(image, shape, cell) <= last {
            return true;
        }
    }
    false
}

/// The line of the first head over the mark without a complete record; where there is none, of the first of which a head
/// before it covers a number.
pub fn damaged_line(image: &[u64], shape: &Shape, mark: u64) -> Option<u64> {
    for cell in 0..shape.all_cells {
        if last_number(image, shape, cell) > mark && !is_complete(image, shape, cell, mark) {
            return Some(2 + cell);
        }
    }
    for cell in 0..shape.all_cells {
        if last_number(image, shape, cell) > mark && is_duplicate(image, shape, mark, cell) {
            return Some(2 + cell);
        }
    }
    None
}
