//! The reads that fetch one record from its ring.

ghost use Rattle.dude_base.specs.Image.{image_words};
ghost use Rattle.dude_base.specs.declared.limits.TheConstants.{LINE, PAGE};
ghost use Rattle.log_ring.specs.Scan.{IsReplayable, record_reads};
ghost use Rattle.log_ring.specs.Scanning.{AreWordsOf, CountsTooMany, IsCountIn, IsHomeRecord, IsRecordOf};
ghost use Rattle.pmem_trait.specs.Reads.{OnlyReads};
ghost use Rattle.std.specs.Prelude.{◌≡◌, ◌+◌, ◌*◌, ◌<◌, ◌≤◌, length, Decides, All, is_ok, IfOk, IfSome, IfNone, OnOk};

use dude_base::bundle::Bundle;
use dude_base::limits::{LINE, MAX_BUNDLE_WRITES, MAX_WRITES, PAGE, VERSION_ONE};
use dude_base::place::Place;
use pmem_trait::{Failed, Medium};
use redo_record::{RECORD_CELLS, SPAN_UNIT, cells_for, decode, start_after};

/// How many words the cells of a record have at most.
const RECORD_WORDS: u64 = LINE * RECORD_CELLS;

// The words of some cells, one after another.
#[tactic(auto, using(crate::proofs::ScanReads::reading_on))]
fn read_cells<M: Medium>(
    m: &mut M,
    place: &Place,
    ring: u64,
    head: u64,
    cells: u64,
    words: &mut [u64; RECORD_WORDS as usize],
) -> Result<(), Failed>
    requires ring { ring < place.now.rings }
    requires head { head < place.now.cells }
    requires few { cells ≤ RECORD_CELLS }
    requires room { image_words place.now ≤ (M.sight m.old).len }
    ensures len { (M.sight m.new).len ≡ (M.sight m.old).len }
    ensures reads { OnlyReads (is_ok result) (M.sight m.old) (M.sight m.new) }
    ensures few { (M.sight m.new).now ≤ (M.sight m.old).now + 256 }
    ensures words { OnOk result (AreWordsOf place.now ring head cells (M.sight m.old) words.new) }
{
    for i in 0..LINE * cells {
        words[i as usize] = m.read(start_after(place, ring, head, i / LINE) + i % LINE)?;
    }
    Ok(())
}

// Whether each write is one of a home word.
fn is_home(place: &Place, b: &Bundle) -> bool
    ensures { Decides result (All (λ w. w.at < place.now.pages * PAGE) b.now.writes) }
{
    let words = place.sizes().pages * PAGE;
    for k in 0..b.len() {
        if b.write_at(k).at >= words {
            return false;
        }
    }
    true
}

// The bundle of a slice of cells, no more than a ring has, where they are just a bundle's and its writes are those of home
// words.
fn home_record(place: &Place, cells: &[u64]) -> Option<Bundle>
    requires { length cells.now ≤ LINE * place.now.cells }
    ensures { IsHomeRecord place.now cells.now result }
{
    let bundle = decode(cells).ok()?;
    if is_home(place, &bundle) {
        Some(bundle)
    } else {
        None
    }
}

// How many writes a head with this word 1 counts, where it may have so many in an image of this version.
fn count_in(word: u64, version: u64) -> Option<u64>
    ensures some { IfSome result (IsCountIn version word) }
    ensures none { IfNone result (CountsTooMany version word) }
{
    let count = word % SPAN_UNIT;
    if count > MAX_BUNDLE_WRITES {
        return None;
    }
    if version == VERSION_ONE && word > MAX_WRITES {
        return None;
    }
    Some(count)
}

/// The bundle whose head stands in this slot of a ring, where it is complete in an image of this version.
#[tactic(auto, using(crate::proofs::ScanReads::reading_on))]
pub fn read_record<M: Medium>(
    m: &mut M,
    place: &Place,
    ring: u64,
    head: u64,
    version: u64,
) -> Result<Option<Bundle>, Failed>
    requires ring { ring < place.now.rings }
    requires head { head < place.now.cells }
    requires room { image_words place.now ≤ (M.sight m.old).len }
    ensures len { (M.sight m.new).len ≡ (M.sight m.old).len }
    ensures reads { OnlyReads (is_ok result) (M.sight m.old) (M.sight m.new) }
    ensures few { (M.sight m.new).now ≤ (M.sight m.old).now + record_reads }
    ensures replayable { IfOk result (λ found. IfSome found (IsReplayable place.now)) }
    ensures record { IfOk result (IsRecordOf place.now version ring head (M.sight m.old)) }
{
    let word = m.read(place.cell(ring, head) + 1)?;
    let Some(count) = count_in(word, version) else {
        return Ok(None);
    };
    let cells = cells_for(count);
    if cells > place.sizes().cells {
        return Ok(None);
    }
    let mut words = [0; RECORD_WORDS as usize];
    read_cells(m, place, ring, head, cells, &mut words)?;
    Ok(home_record(place, &words[..(LINE * cells) as usize]))
}
