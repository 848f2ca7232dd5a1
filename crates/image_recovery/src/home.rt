//! The home words of an image are read.

ghost use Rattle.dude_base.specs.Image.{image_words};
ghost use Rattle.dude_base.specs.declared.limits.TheConstants.{PAGE};
ghost use Rattle.image_recovery.specs.Faults.{IsReadFault, ReadsMade};
ghost use Rattle.image_recovery.specs.Replays.{IsHomeOf};
ghost use Rattle.std.specs.Prelude.{◌≡◌, ◌+◌, ◌*◌, ◌≤◌, length, IfOk, IfErr};

use crate::open_fault::OpenFault;
use dude_base::limits::PAGE;
use dude_base::place::Place;
use pmem_trait::Medium;
use std::alloc::Global;

/// The home words of the image on a medium.
#[tactic(auto, using(crate::proofs::ReplayReading::recovering))]
pub fn read_home<M: Medium>(alloc: Global, m: &mut M, place: &Place) -> Result<Vec<u64>, OpenFault>
    requires { image_words place.now ≤ (M.sight m.old).len }
    ensures len { (M.sight m.new).len ≡ (M.sight m.old).len }
    ensures reads { ReadsMade result (M.sight m.old) (M.sight m.new) }
    ensures fault { IfErr result IsReadFault }
    ensures few { (M.sight m.new).now ≤ (M.sight m.old).now + place.now.pages * PAGE }
    ensures size { IfOk result (λ words. length words.items ≡ place.now.pages * PAGE) }
    ensures words { IfOk result (λ words. IsHomeOf place.now (M.sight m.old) words.items) }
{
    let count = place.sizes().pages * PAGE;
    let mut words = Vec::with_capacity(alloc, count as usize)?;
    for i in 0..count {
        words.push_reserved(m.read(place.home(i))?);
    }
    Ok(words)
}
