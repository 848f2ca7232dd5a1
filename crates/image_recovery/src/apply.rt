//! The home is overwritten by the records that follow the mark without a gap.

ghost use Rattle.dude_base.specs.declared.limits.TheConstants.{MAX_NUMBER};
ghost use Rattle.image_recovery.specs.Replays.{Applies, CanApply, LacksHeads};
ghost use Rattle.log_ring.specs.Scan.{ReadsMade, record_reads};
ghost use Rattle.std.specs.Prelude.{◌≡◌, ◌+◌, ◌*◌, ◌≤◌, IfOk, length};

use dude_base::limits::MAX_NUMBER;
use dude_base::place::Place;
use log_ring::{Head, ScanFault, read_bundle};
use pmem_trait::Medium;

/// Overwrites an array of home words by the bundles whose numbers follow this one without a gap, in their order, and
/// answers the last such number. Of the bundles, whose heads a scan found, one at a time is read.
#[tactic(auto, using(log_ring::proofs::ScanReads::scanning))]
pub fn apply_consecutive<M: Medium>(
    m: &mut M,
    place: &Place,
    log: &[Head],
    mark: u64,
    words: &mut [u64],
) -> Result<u64, ScanFault>
    requires { CanApply place.now log.now mark words.old (M.sight m.old).len }
    ensures len { (M.sight m.new).len ≡ (M.sight m.old).len }
    ensures reads { ReadsMade result (M.sight m.old) (M.sight m.new) }
    ensures few { (M.sight m.new).now ≤ (M.sight m.old).now + record_reads * length log.now }
    ensures small { IfOk result (λ number. number ≤ MAX_NUMBER) }
    ensures applied { Applies place.now mark log.now words.old words.new result (M.sight m.old) }
    ensures damaged { LacksHeads place.now mark log.now result (M.sight m.old) }
{
    let mut number = mark;
    for head in log {
        let bundle = read_bundle(m, place, head)?;
        if bundle.first() != number + 1 {
            return Ok(number);
        }
        bundle.apply_to(words);
        number = bundle.last();
    }
    Ok(number)
}
