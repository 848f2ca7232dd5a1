//! The bundles of the heads that a first pass found, read in the order of their numbers.

ghost use Rattle.dude_base.specs.Image.{image_words};
ghost use Rattle.log_ring.specs.Heads.{cell_of};
ghost use Rattle.log_ring.specs.Scan.{AreBundles, FindsBundles, IsBundleOf, IsReplayable, LacksBundle, LacksBundles, NamesDamage, ReadsMade, record_reads, scan_reads};
ghost use Rattle.log_ring.specs.declared.scan_fault.ScanFault.TheVariants.{Device};
ghost use Rattle.pmem_trait.specs.Sights.{Risen};
ghost use Rattle.redo_record.specs.Cells.{IsCell};
ghost use Rattle.std.specs.Prelude.{◌≡◌, ◌+◌, ◌*◌, ◌≤◌, All, IfOk, IsErrOf, length};

use crate::head::Head;
use crate::reads::read_record;
use crate::scan_fault::ScanFault;
use crate::scanning::heads;
use dude_base::bundle::Bundle;
use dude_base::limits::{LINE, VERSION};
use dude_base::place::Place;
use pmem_trait::Medium;
use std::alloc::Global;

/// Reads the bundles of all rings with last numbers over `above`, in the order of their numbers, by the version of the image.
///
/// The medium is only read. A head with a number over `above` that has no complete record is damage, and so is one whose
/// first number isn't over it; where each is sound, so is a head of which a head at a lower line covers a number. The first
/// line of such a head is answered. Also on a medium whose content contracts don't see, the bundles can be replayed.
pub fn scan<M: Medium>(
    alloc: Global,
    m: &mut M,
    place: &Place,
    above: u64,
) -> Result<Vec<Bundle>, ScanFault>
    requires room { image_words place.now ≤ (M.sight m.old).len }
    ensures len { (M.sight m.new).len ≡ (M.sight m.old).len }
    ensures reads { ReadsMade result (M.sight m.old) (M.sight m.new) }
    ensures few { (M.sight m.new).now ≤ (M.sight m.old).now + scan_reads }
    ensures cause { IsErrOf result Device → Risen (M.sight m.old).faults (M.sight m.new).faults }
    ensures replayable { IfOk result (λ found. All (IsReplayable place.now) found.items) }
    ensures records { IfOk result (λ bs. FindsBundles place.now above (M.sight m.old) bs.items) }
    ensures damaged { NamesDamage place.now above result (M.sight m.old) }
{
    // The sizes are accepted, so there are few cells.
    let _sizes = place.sizes();
    let found = heads(alloc, m, place, above)?;
    read_bundles(alloc, m, place, &found)
}

// Reads the bundles of these heads.
#[tactic(auto, using(crate::proofs::ScanReads::scanning))]
fn read_bundles<M: Medium>(
    alloc: Global,
    m: &mut M,
    place: &Place,
    found: &[Head],
) -> Result<Vec<Bundle>, ScanFault>
    requires inside { All (λ h. IsCell place.now (cell_of h)) found.now }
    requires room { image_words place.now ≤ (M.sight m.old).len }
    ensures len { (M.sight m.new).len ≡ (M.sight m.old).len }
    ensures reads { ReadsMade result (M.sight m.old) (M.sight m.new) }
    ensures few { (M.sight m.new).now ≤ (M.sight m.old).now + record_reads * length found.now }
    ensures replayable { IfOk result (λ bundles. All (IsReplayable place.now) bundles.items) }
    ensures bundles { IfOk result (λ bs. AreBundles place.now found.now (M.sight m.old) bs.items) }
    ensures damaged { LacksBundles place.now found.now result (M.sight m.old) }
{
    let mut bundles = Vec::with_capacity(alloc, found.len())?;
    for head in found {
        bundles.push_reserved(read_bundle(m, place, head)?);
    }
    Ok(bundles)
}

/// Reads the bundle of a head once more. Where there is none any more, which can't be where the content is as it was, it is
/// `Damaged` at the head's line.
pub fn read_bundle<M: Medium>(m: &mut M, place: &Place, head: &Head) -> Result<Bundle, ScanFault>
    requires inside { IsCell place.now (cell_of head.now) }
    requires room { image_words place.now ≤ (M.sight m.old).len }
    ensures len { (M.sight m.new).len ≡ (M.sight m.old).len }
    ensures reads { ReadsMade result (M.sight m.old) (M.sight m.new) }
    ensures few { (M.sight m.new).now ≤ (M.sight m.old).now + record_reads }
    ensures replayable { IfOk result (IsReplayable place.now) }
    ensures bundle { IfOk result (IsBundleOf place.now head.now (M.sight m.old)) }
    ensures damaged { LacksBundle place.now head.now result (M.sight m.old) }
{
    match read_record(m, place, head.ring, head.slot, VERSION)? {
        Some(bundle) => Ok(bundle),
        None => Err(ScanFault::Damaged {
            line: place.cell(head.ring, head.slot) / LINE,
        }),
    }
}
