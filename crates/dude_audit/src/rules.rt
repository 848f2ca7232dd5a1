//! The rules of the numbers.

ghost use Rattle.dude_audit.specs.Claim.{claims_sync};
ghost use Rattle.dude_audit.specs.Rules.{within_bounds, repeats, LearnsFrom, AreRuled, IsFirstBroken};
ghost use Rattle.std.specs.HashSet.{contains};
ghost use Rattle.std.specs.Prelude.{◌≡◌, ◌≤◌, All, AllPairs, IfOk, OnOk, IfSome, IfNone, true, false, not, nat_eq, if◌then◌else◌};

use crate::Claim;
use std::alloc::{AllocError, Global};
use std::collections::HashSet;

// Whether the line's number keeps its bounds: `asked` is the greatest number of the earlier lines of its file but those
// of `SYNC`, `any` that of all, neither under the first number.
fn keeps_bounds(claim: &Claim, asked: u64, any: u64, last: u64) -> bool
    ensures { result ≡ within_bounds claim.now asked any last }
{
    if claim.is_sync() {
        any <= claim.number && claim.number <= last
    } else if claim.wrote {
        asked < claim.number
    } else {
        asked <= claim.number
    }
}

// The greatest number so far, of the same file, or the first number where another file begins.
fn kept(same: bool, greatest: u64, first: u64) -> u64
    ensures { result ≡ (if same then greatest else first) }
{
    if same { greatest } else { first }
}

// Whether the request didn't write, or wrote with a number that no earlier one wrote with; that number is added.
fn writes_anew(written: &mut HashSet<u64>, claim: &Claim) -> Result<bool, AllocError>
    ensures anew { IfOk result (λ r. r ≡ not (repeats (contains nat_eq written.old) claim.now)) }
    ensures added { OnOk result
        (LearnsFrom (contains nat_eq written.old) (contains nat_eq written.new) claim.now) }
{
    if !claim.wrote {
        return Ok(true);
    }
    let anew = !written.contains(&claim.number);
    written.insert(claim.number)?;
    Ok(anew)
}

/// The index of the first line whose number breaks a rule.
pub(crate) fn first_broken(
    alloc: Global,
    claims: &[Claim],
    first: u64,
    last: u64,
) -> Result<Option<usize>, AllocError>
    requires in_files { AllPairs (λ c d. c.file ≤ d.file) claims.now }
    requires asks { All (λ c. c.wrote ≡ true → claims_sync c ≡ false) claims.now }
    ensures kept { IfOk result (λ answer. IfNone answer (AreRuled first last claims.now)) }
    ensures broken { IfOk result (λ answer. IfSome answer (IsFirstBroken first last claims.now)) }
{
    let mut written: HashSet<u64> = HashSet::new(alloc);
    let mut file = 0;
    let mut asked = first;
    let mut any = first;
    for k in 0..claims.len() {
        let claim = claims[k];
        let same = claim.file == file;
        file = claim.file;
        asked = kept(same, asked, first);
        any = kept(same, any, first);
        if !keeps_bounds(&claim, asked, any, last) {
            return Ok(Some(k));
        }
        if !writes_anew(&mut written, &claim)? {
            return Ok(Some(k));
        }
        asked = kept(claim.is_sync(), asked, claim.number);
        any = any.max(claim.number);
    }
    Ok(None)
}
