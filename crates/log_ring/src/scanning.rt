//! The heads of the rings of an image, found by a first pass over all cells.

ghost use Rattle.dude_base.specs.Image.{image_words, cell_at};
ghost use Rattle.dude_base.specs.declared.limits.TheConstants.{MAX_RINGS};
ghost use Rattle.log_ring.specs.Heads.{cell_of};
ghost use Rattle.log_ring.specs.Scan.{FindsHeads, NamesDamage, ReadsMade, cell_reads, head_reads, ring_reads};
ghost use Rattle.log_ring.specs.Scanning.{HasHeads, HoldsRing, IsNamedTorn, KnowsRing, NamesInVersion, NamesTorn, SeesHead};
ghost use Rattle.redo_record.specs.Cells.{IsCell};
ghost use Rattle.std.specs.Prelude.{◌≡◌, ◌+◌, ◌*◌, ◌<◌, ◌≤◌, All, IfOk, IfSome, OnOk, length};

use crate::head::Head;
use crate::reads::read_record;
use crate::scan_fault::ScanFault;
use crate::scan_state::ScanState;
use dude_base::limits::{LINE, VERSION_WORD};
use dude_base::place::Place;
use pmem_trait::Medium;
use redo_record::KIND;
use std::alloc::Global;

/// The heads that were found, or why none are given.
pub type FoundHeads = Result<Vec<Head>, ScanFault>;

/// Finds the heads of all rings with last numbers over `above`, in the order of their numbers, by the version of the image.
///
/// The medium is only read. A head with a number over `above` that has no complete record is damage, and so is one whose
/// first number isn't over it; where each is sound, so is a head of which a head at a lower line covers a number. The first
/// line of such a head is answered. Their bundles are read by `read_bundle`, so that one at a time is in memory.
pub fn heads<M: Medium>(alloc: Global, m: &mut M, place: &Place, above: u64) -> FoundHeads
    requires room { image_words place.now ≤ (M.sight m.old).len }
    ensures len { (M.sight m.new).len ≡ (M.sight m.old).len }
    ensures reads { ReadsMade result (M.sight m.old) (M.sight m.new) }
    ensures few { (M.sight m.new).now ≤ (M.sight m.old).now + head_reads }
    ensures inside { IfOk result (λ found. All (λ h. IsCell place.now (cell_of h)) found.items) }
    ensures count { IfOk result (λ found. length found.items ≤ place.now.rings * place.now.cells) }
    ensures heads { IfOk result (λ found. FindsHeads place.now above (M.sight m.old) found.items) }
    ensures damaged { NamesDamage place.now above result (M.sight m.old) }
{
    let version = m.read(VERSION_WORD)?;
    scan_rings(alloc, m, place, version, above)
}

// Finds the heads of all rings, by this version.
#[tactic(auto, using(crate::proofs::ScanReads::scanning))]
fn scan_rings<M: Medium>(
    alloc: Global,
    m: &mut M,
    place: &Place,
    version: u64,
    above: u64,
) -> FoundHeads
    requires room { image_words place.now ≤ (M.sight m.old).len }
    ensures len { (M.sight m.new).len ≡ (M.sight m.old).len }
    ensures reads { ReadsMade result (M.sight m.old) (M.sight m.new) }
    ensures few { (M.sight m.new).now ≤ (M.sight m.old).now + ring_reads * MAX_RINGS }
    ensures inside { IfOk result (λ found. All (λ h. IsCell place.now (cell_of h)) found.items) }
    ensures count { IfOk result (λ found. length found.items ≤ place.now.rings * place.now.cells) }
    ensures heads { IfOk result (λ hs. HasHeads place.now version above (M.sight m.old) hs.items) }
    ensures damaged { NamesInVersion place.now version above result (M.sight m.old) }
{
    let mut found = ScanState::new(alloc);
    for ring in 0..place.sizes().rings {
        scan_ring(m, place, ring, version, above, &mut found)?;
    }
    found.into_heads(alloc)
}

// Takes in what one ring has.
#[tactic(auto, using(crate::proofs::ScanReads::scanning))]
fn scan_ring<M: Medium>(
    m: &mut M,
    place: &Place,
    ring: u64,
    version: u64,
    above: u64,
    found: &mut ScanState,
) -> Result<(), ScanFault>
    requires ring { ring < place.now.rings }
    requires room { image_words place.now ≤ (M.sight m.old).len }
    ensures len { (M.sight m.new).len ≡ (M.sight m.old).len }
    ensures reads { ReadsMade result (M.sight m.old) (M.sight m.new) }
    ensures few { (M.sight m.new).now ≤ (M.sight m.old).now + ring_reads }
    ensures holds { OnOk result (HoldsRing place.now ring found.old found.new) }
    ensures knows { OnOk result
        (KnowsRing place.now version above ring found.old found.new (M.sight m.old)) }
    ensures torn { NamesTorn place.now version above ring found.old result (M.sight m.old) }
{
    for cell in 0..place.sizes().cells {
        if let Some(head) = scan_cell(m, place, ring, cell, version, above)? {
            found.take(place.cell(ring, cell) / LINE, head)?;
        }
    }
    Ok(())
}

// The head in this cell, where it is one with a number over `above`.
#[tactic(auto, using(crate::proofs::ScanReads::scanning))]
fn scan_cell<M: Medium>(
    m: &mut M,
    place: &Place,
    ring: u64,
    cell: u64,
    version: u64,
    above: u64,
) -> Result<Option<Head>, ScanFault>
    requires cell { IsCell place.now (cell_at ring cell) }
    requires room { image_words place.now ≤ (M.sight m.old).len }
    ensures len { (M.sight m.new).len ≡ (M.sight m.old).len }
    ensures reads { ReadsMade result (M.sight m.old) (M.sight m.new) }
    ensures few { (M.sight m.new).now ≤ (M.sight m.old).now + cell_reads }
    ensures here { IfOk result (λ found. IfSome found (λ h. cell_of h ≡ cell_at ring cell)) }
    ensures seen { IfOk result (SeesHead place.now version above ring cell (M.sight m.old)) }
    ensures torn { IsNamedTorn place.now version above (cell_at ring cell) result (M.sight m.old) }
{
    let start = place.cell(ring, cell);
    let tag = m.read(start)?;
    if tag / KIND != 1 || tag % KIND <= above {
        return Ok(None);
    }
    let Some(bundle) = read_record(m, place, ring, cell, version)? else {
        return Err(ScanFault::Damaged { line: start / LINE });
    };
    if bundle.first() <= above {
        return Err(ScanFault::Damaged { line: start / LINE });
    }
    Ok(Some(Head {
        last: bundle.last(),
        span: bundle.last() - bundle.first(),
        ring,
        slot: cell,
    }))
}
