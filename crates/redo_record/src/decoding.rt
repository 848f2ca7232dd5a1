//! A bundle is read from its cells.

ghost use Rattle.dude_base.specs.Records.{RedoBundle};
ghost use Rattle.redo_record.specs.Decoding.{AreWritesIn, Continues, HasHeadFor, IsBundleIn};
ghost use Rattle.redo_record.specs.Encoding.{word_in_slice, encoded_cells, IsEncodable, IsRecordSlice};
ghost use Rattle.redo_record.specs.Record.{cells_for, write_of};
ghost use Rattle.std.specs.Prelude.{◌≡◌, ◌+◌, ◌<◌, ◌*◌, ◌/◌, ◌%◌, length, IfOk, OnOk, OnErr};

use crate::bad_record::BadRecord;
use crate::encoding::{SPAN_UNIT, cells_for};
use crate::tag::{CONTINUATION_KIND, HEAD_KIND, KIND};
use dude_base::bundle::Bundle;
use dude_base::limits::{LINE, MAX_BUNDLE_WRITES, MAX_NUMBER, MAX_SPAN};
use dude_base::write::Write;
use dude_base::write_list::BundleWrites;

/// Reads a bundle from its cells, 8 words each.
///
/// The first cell has to be the head of numbers from 1 to `MAX_NUMBER`, at most `MAX_SPAN + 1` of them, with at most
/// `MAX_BUNDLE_WRITES` writes of distinct words, and the others just the continuations that these writes need. Whether
/// these are home words isn't looked at, nor how many cells a ring has, and pairs that hold no write aren't read.
pub fn decode(cells: &[u64]) -> Result<Bundle, BadRecord>
    ensures ok { IfOk result (IsBundleIn cells.now) }
    ensures bad { OnErr result (¬ IsRecordSlice cells.now) }
    ensures back { (r : RedoBundle) → IsEncodable r → cells.now ≡ encoded_cells r → result ≡ Ok r }
{
    read_record(cells)
}

fn read_record(cells: &[u64]) -> Result<Bundle, BadRecord>
    ensures ok { IfOk result (IsBundleIn cells.now) }
    ensures bad { OnErr result (¬ IsRecordSlice cells.now) }
{
    let count = check_head(cells)?;
    check_continuations(cells, count)?;
    let writes = read_writes(cells, count)?;
    Ok(Bundle::of(cells[0] % KIND, cells[1] / SPAN_UNIT, writes))
}

// The count of writes, where the head is one and there are just its cells.
fn check_head(cells: &[u64]) -> Result<u64, BadRecord>
    ensures ok { IfOk result (HasHeadFor cells.now) }
    ensures bad { OnErr result (¬ IsRecordSlice cells.now) }
{
    if cells.len() < 2 {
        return Err(BadRecord);
    }
    let tag = cells[0];
    if tag <= HEAD_KIND || tag > HEAD_KIND + MAX_NUMBER {
        return Err(BadRecord);
    }
    let count = cells[1] % SPAN_UNIT;
    let span = cells[1] / SPAN_UNIT;
    if count > MAX_BUNDLE_WRITES || span > MAX_SPAN || span >= tag % KIND {
        return Err(BadRecord);
    }
    if cells.len() as u64 != LINE * cells_for(count) {
        return Err(BadRecord);
    }
    Ok(count)
}

fn check_continuations(cells: &[u64], count: u64) -> Result<(), BadRecord>
    requires { HasHeadFor cells.now count }
    ensures ok { OnOk result (Continues cells.now (cells_for count)) }
    ensures bad { OnErr result (¬ IsRecordSlice cells.now) }
{
    let tag = CONTINUATION_KIND + cells[0] % KIND;
    for k in 1..cells_for(count) {
        if cells[(LINE * k) as usize] != tag || cells[(LINE * k + 1) as usize] != k {
            return Err(BadRecord);
        }
    }
    Ok(())
}

// The writes, where their words differ.
fn read_writes(cells: &[u64], count: u64) -> Result<BundleWrites, BadRecord>
    requires { HasHeadFor cells.now count }
    ensures ok { IfOk result (AreWritesIn cells.now count) }
    ensures bad { OnErr result (¬ IsRecordSlice cells.now) }
{
    let mut writes = BundleWrites::new();
    for i in 0..count {
        let w = write_in(cells, i);
        if writes.find(w.at).is_some() {
            return Err(BadRecord);
        }
        writes.put(w)?;
    }
    Ok(writes)
}

fn write_in(cells: &[u64], i: u64) -> Write
    requires { LINE * (i / 3) + (3 + 2 * (i % 3)) < length cells.now }
    ensures { result ≡ write_of (word_in_slice cells.now) i }
{
    Write {
        at: cells[(LINE * (i / 3) + (2 + 2 * (i % 3))) as usize],
        value: cells[(LINE * (i / 3) + (3 + 2 * (i % 3))) as usize],
    }
}
