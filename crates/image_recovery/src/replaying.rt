//! The image on a medium is replayed, or refused for the first reason that fits.

ghost use Rattle.image_recovery.specs.Faults.{IsReplayFaultOn, ReadsMade};
ghost use Rattle.image_recovery.specs.Replays.{IsReplay, IsReplayOf, replay_reads};
ghost use Rattle.image_recovery.specs.declared.open_fault.OpenFault.TheVariants.{Device};
ghost use Rattle.pmem_trait.specs.Reads.{ContentHas};
ghost use Rattle.pmem_trait.specs.Sights.{Risen};
ghost use Rattle.std.specs.Prelude.{◌≡◌, ◌+◌, ◌≤◌, IfErr, IfOk, IsErrOf};

use crate::apply::apply_consecutive;
use crate::header::read_sizes;
use crate::home::read_home;
use crate::open_fault::OpenFault;
use crate::replayed_image::ReplayedImage;
use dude_base::limits::{MARK, MAX_NUMBER};
use dude_base::place::Place;
use log_ring::heads;
use pmem_trait::Medium;
use std::alloc::Global;

/// Replays the image on a medium, which is only read.
///
/// The home is overwritten by the records of the numbers that follow the mark without a gap; records behind a gap are
/// passed over. One record at a time is in memory. It is refused for the first reason that fits: it isn't formatted, the mark
/// is too great, the log is damaged.
#[tactic(auto, using(log_ring::proofs::Replayable::one_moment))]
pub fn replay<M: Medium>(alloc: Global, m: &mut M) -> Result<ReplayedImage, OpenFault>
    ensures len { (M.sight m.new).len ≡ (M.sight m.old).len }
    ensures reads { ReadsMade result (M.sight m.old) (M.sight m.new) }
    ensures few { (M.sight m.new).now ≤ (M.sight m.old).now + replay_reads }
    ensures cause { IsErrOf result Device → Risen (M.sight m.old).faults (M.sight m.new).faults }
    ensures whole { IfOk result (IsReplay (M.sight m.old).len) }
    ensures replayed { IfOk result (λ r. ContentHas (IsReplayOf r) (M.sight m.old)) }
    ensures refused { IfErr result (IsReplayFaultOn (M.sight m.old)) }
{
    let Some(sizes) = read_sizes(m)? else {
        return Err(OpenFault::Unformatted);
    };
    let place = Place::of(&sizes);
    let mark = m.read(MARK)?;
    if mark > MAX_NUMBER {
        return Err(OpenFault::Damaged { line: 1 });
    }
    let log = heads(alloc, m, &place, mark)?;
    let mut words = read_home(alloc, m, &place)?;
    let number = apply_consecutive(m, &place, &log, mark, &mut words)?;
    Ok(ReplayedImage {
        sizes,
        number,
        words,
    })
}
