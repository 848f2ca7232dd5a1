//! The calls on the medium that a whole call of the back makes, by the layout of an image. No code is shared here with what makes
//! them elsewhere.

use dude_base::limits::PAGE;
use dude_base::sizes::Sizes;
use pmem_trait::Call;
use std::alloc::{AllocError, Global};

/// Where the first cell of the first ring begins, and how many words a cell has, as a line does.
const FIRST_CELL: u64 = 16;

const CELL: u64 = 8;
/// The word of the mark.
const MARK: u64 = 8;
/// What the tag of a head has over its number, and that of a cell behind it.
const HEAD: u64 = 1 << 62;

const CONTINUATION: u64 = 1 << 63;

/// The numbers that a bundle covers, from the first to the last.
#[derive(Clone, Copy)]
pub struct Numbers {
    pub first: u64,
    pub last: u64,
}

/// The calls that append a bundle of these writes to a ring, from this slot on: the body, and then the tag.
pub fn append_calls(
    alloc: Global,
    sizes: &Sizes,
    cell: (u64, u64),
    numbers: Numbers,
    writes: &[(u64, u64)],
) -> Result<Vec<Call>, AllocError> {
    let words = bundle_words(alloc, sizes, cell, numbers, writes)?;
    let mut calls = Vec::new(alloc);
    if let Some((tag, body)) = words.as_slice().split_first() {
        put_group(&mut calls, body)?;
        put_group(&mut calls, &[*tag])?;
    }
    Ok(calls)
}

/// The calls that put these writes home, in rising order, and settle the mark at the number.
pub fn reproduce_calls(
    alloc: Global,
    sizes: &Sizes,
    writes: &[(u64, u64)],
    number: u64,
) -> Result<Vec<Call>, AllocError> {
    let mut words = Vec::new(alloc);
    for (at, value) in writes {
        words.push((home_word(sizes, *at), *value))?;
    }
    let mut calls = Vec::new(alloc);
    put_group(&mut calls, words.as_slice())?;
    put_group(&mut calls, &[(MARK, number)])?;
    Ok(calls)
}

/// The calls that read a page.
pub fn page_calls(alloc: Global, sizes: &Sizes, page: u64) -> Result<Vec<Call>, AllocError> {
    let mut calls = Vec::new(alloc);
    for offset in 0..PAGE {
        let at = page.saturating_mul(PAGE).saturating_add(offset);
        calls.push(Call::Read(home_word(sizes, at)))?;
    }
    Ok(calls)
}

/// Puts words, flushes their lines, each once, and fences.
fn put_group(calls: &mut Vec<Call>, words: &[(u64, u64)]) -> Result<(), AllocError> {
    for (at, value) in words {
        calls.push(Call::Put {
            at: *at,
            value: *value,
        })?;
    }
    let mut last = None;
    for (at, _) in words {
        let line = *at / CELL;
        if last != Some(line) {
            calls.push(Call::Flush(line))?;
            last = Some(line);
        }
    }
    calls.push(Call::Fence)?;
    Ok(())
}

/// The words of a bundle's cells, the tag of its head first. Each cell has three writes.
fn bundle_words(
    alloc: Global,
    sizes: &Sizes,
    cell: (u64, u64),
    numbers: Numbers,
    writes: &[(u64, u64)],
) -> Result<Vec<(u64, u64)>, AllocError> {
    let count = writes.len() as u64;
    let mut words = Vec::new(alloc);
    for k in 0..(count.saturating_add(2) / 3).max(1) {
        let slot = cell.1.saturating_add(k) % sizes.cells.max(1);
        let start = cell_start(sizes, cell.0, slot);
        words.push((start, tag_of(numbers, k)))?;
        words.push((start.saturating_add(1), second_word(numbers, k, count)))?;
        push_writes(&mut words, start.saturating_add(2), k, writes)?;
    }
    Ok(words)
}

fn tag_of(numbers: Numbers, k: u64) -> u64 {
    let kind = if k == 0 { HEAD } else { CONTINUATION };
    kind.saturating_add(numbers.last)
}

/// How many writes a bundle has, and how many numbers beside its last one; or the index of a cell behind the head.
fn second_word(numbers: Numbers, k: u64, count: u64) -> u64 {
    if k > 0 {
        return k;
    }
    let others = numbers.last.saturating_sub(numbers.first);
    others.saturating_mul(256).saturating_add(count)
}

/// The three writes of a cell, with zeros where there is none.
fn push_writes(
    words: &mut Vec<(u64, u64)>,
    start: u64,
    k: u64,
    writes: &[(u64, u64)],
) -> Result<(), AllocError> {
    for j in 0..3_u64 {
        let place = k.saturating_mul(3).saturating_add(j) as usize;
        let (at, value) = writes.get(place).copied().unwrap_or((0, 0));
        let word = start.saturating_add(2 * j);
        words.push((word, at))?;
        words.push((word.saturating_add(1), value))?;
    }
    Ok(())
}

/// The first word of a cell.
fn cell_start(sizes: &Sizes, ring: u64, slot: u64) -> u64 {
    let cell = ring.saturating_mul(sizes.cells).saturating_add(slot);
    cell.saturating_mul(CELL).saturating_add(FIRST_CELL)
}

/// The home stands behind the rings.
fn home_word(sizes: &Sizes, at: u64) -> u64 {
    cell_start(sizes, sizes.rings, 0).saturating_add(at)
}
