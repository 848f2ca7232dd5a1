//! A packet: a bundle as the bytes of its cells, each word as eight bytes, the least first.

ghost use Rattle.dude_base.specs.Records.{HasNumbers};
ghost use Rattle.dude_base.specs.declared.limits.TheConstants.{PAGE};
ghost use Rattle.dude_follow.specs.Packet.{BeginsWith, BeginsWithNone, CountsCells, IsInWords, packet_bytes, word_in_bytes};
ghost use Rattle.std.specs.Int.{w64, to_le_bytes};
ghost use Rattle.std.specs.Prelude.{◌≡◌, ℕ, ◌+◌, ◌*◌, ◌<◌, ◌≤◌, ◌++◌, ◌^◌, All, Decides, IfNone, IfSome, OnErr, OnOk, flat_map, length, slice_index, vec_capacity, vec_len};

use dude_base::bundle::Bundle;
use dude_base::limits::{LINE, MAX_BUNDLE_WRITES, PAGE};
use dude_base::sizes::Sizes;
use redo_record::{RECORD_CELLS, SPAN_UNIT, cells_for, decode, encode};
use std::alloc::AllocError;

/// Bytes of a word.
const WORD_BYTES: usize = 8;

/// Bytes of a cell.
pub const CELL_BYTES: usize = WORD_BYTES * LINE as usize;

/// How many words the cells of a bundle have at most.
const RECORD_WORDS: usize = (LINE * RECORD_CELLS) as usize;

// Appends a word as eight bytes, for which there is room.
fn put_word(out: &mut Vec<u8>, word: u64)
    requires room { vec_len out.old + 8 ≤ vec_capacity out.old }
    ensures bytes { out.new.items ≡ out.old.items ++ to_le_bytes w64 word }
    ensures len { vec_len out.new ≡ vec_len out.old + 8 }
    ensures capacity { vec_capacity out.new ≡ vec_capacity out.old }
    ensures small { word < 2 ^ 64 }
{
    for byte in word.to_le_bytes() {
        out.push_reserved(byte);
    }
}

// Appends the words of a cell, for which there is room.
fn put_cell(out: &mut Vec<u8>, words: &[u64; LINE as usize])
    requires room { vec_len out.old + 64 ≤ vec_capacity out.old }
    ensures bytes { out.new.items ≡ out.old.items ++ flat_map (to_le_bytes w64) words.now }
    ensures len { vec_len out.new ≡ vec_len out.old + 64 }
    ensures capacity { vec_capacity out.new ≡ vec_capacity out.old }
    ensures small { All (λ word. word < 2 ^ 64) words.now }
{
    for word in words {
        put_word(out, *word);
    }
}

/// Appends the bundle's cells, each word as eight bytes, the least first.
pub fn write_packet(b: &Bundle, out: &mut Vec<u8>) -> Result<(), AllocError>
    requires numbers { HasNumbers b.now }
    ensures ok { OnOk result (out.new.items ≡ out.old.items ++ packet_bytes b.now) }
    ensures words { OnOk result (IsInWords b.now) }
    ensures err { OnErr result (out.new.items ≡ out.old.items) }
{
    let cells = cells_for(b.len());
    out.reserve(CELL_BYTES * cells as usize)?;
    let mut words = [0; LINE as usize];
    for cell in 0..cells {
        encode(b, cell, &mut words);
        put_cell(out, &words);
    }
    Ok(())
}

// The word at this index.
fn word_in(bytes: &[u8], i: usize) -> u64
    requires { 8 * i + 8 ≤ length bytes.now }
    ensures { result ≡ word_in_bytes bytes.now i }
{
    let mut word = [0; WORD_BYTES];
    word.copy_from_slice(&bytes[WORD_BYTES * i..WORD_BYTES * i + WORD_BYTES]);
    u64::from_le_bytes(word)
}

// The words of so many cells.
fn words_in(bytes: &[u8], cells: usize) -> [u64; RECORD_WORDS]
    requires few { cells ≤ 32 }
    requires long { 64 * cells ≤ length bytes.now }
    ensures words { (i : ℕ) → i < 8 * cells → slice_index result i ≡ word_in_bytes bytes.now i }
    ensures long { length result ≡ 256 }
{
    let mut words = [0; RECORD_WORDS];
    for i in 0..LINE as usize * cells {
        words[i] = word_in(bytes, i);
    }
    words
}

// How many cells the packet has that these bytes begin with, where its head is there, the cells that it counts, and a ring is
// long enough for them.
fn count_cells(bytes: &[u8], sizes: &Sizes) -> Option<u64>
    ensures some { IfSome result (CountsCells sizes.now bytes.now) }
    ensures none { IfNone result (BeginsWithNone sizes.now bytes.now) }
{
    if bytes.len() < CELL_BYTES {
        return None;
    }
    let count = word_in(bytes, 1) % SPAN_UNIT;
    if count > MAX_BUNDLE_WRITES {
        return None;
    }
    let cells = cells_for(count);
    if cells > sizes.cells || bytes.len() / CELL_BYTES < cells as usize {
        return None;
    }
    Some(cells)
}

// Whether each write is one of a home word.
fn is_home(b: &Bundle, sizes: &Sizes) -> bool
    ensures { Decides result (All (λ w. w.at < sizes.now.pages * PAGE) b.now.writes) }
{
    for k in 0..b.len() {
        if b.write_at(k).at / PAGE >= sizes.pages {
            return false;
        }
    }
    true
}

/// The packet that these bytes begin with, where they begin with one.
pub fn read_packet(bytes: &[u8], sizes: &Sizes) -> Option<Bundle>
    ensures some { IfSome result (BeginsWith sizes.now bytes.now) }
    ensures none { IfNone result (BeginsWithNone sizes.now bytes.now) }
{
    let cells = count_cells(bytes, sizes)?;
    let words = words_in(bytes, cells as usize);
    let bundle = decode(&words[..(LINE * cells) as usize]).ok()?;
    if is_home(&bundle, sizes) {
        Some(bundle)
    } else {
        None
    }
}
