//! The image on a medium, or one in memory, is recovered, or refused for the first reason that fits.

ghost use Rattle.image_recovery.specs.Faults.{IsFaultOf, IsFaultOn, ReadsMade, in_memory};
ghost use Rattle.image_recovery.specs.Found.{IsFoundIn, IsFoundOn, IsRecoveryOf};
ghost use Rattle.image_recovery.specs.Replays.{replay_reads};
ghost use Rattle.image_recovery.specs.declared.open_fault.OpenFault.TheVariants.{Device};
ghost use Rattle.pmem_trait.specs.Sights.{Risen};
ghost use Rattle.redo_record.specs.Images.{sizes_of};
ghost use Rattle.std.specs.Prelude.{◌≡◌, ◌+◌, ◌≤◌, IfErr, IfOk, IsErrOf};
ghost use Rattle.tatp_layout.specs.StandsFor.{IsLawful};

use crate::layouts::layout_of;
use crate::open_fault::OpenFault;
use crate::plain_image::PlainImage;
use crate::recovered::Recovered;
use crate::replaying::replay;
use pmem_trait::Medium;
use std::alloc::Global;
use tatp_check::check;
use tatp_layout::Layout;

/// Recovers the image on a medium, which is only read: the layout of its home, the number, and the home words then.
///
/// It is refused for the first reason that fits: it isn't formatted, it is damaged, its home stands for no database.
pub fn recover<M: Medium>(alloc: Global, m: &mut M) -> Result<(Layout, Recovered), OpenFault>
    ensures len { (M.sight m.new).len ≡ (M.sight m.old).len }
    ensures reads { ReadsMade result (M.sight m.old) (M.sight m.new) }
    ensures few { (M.sight m.new).now ≤ (M.sight m.old).now + replay_reads }
    ensures cause { IsErrOf result Device → Risen (M.sight m.old).faults (M.sight m.new).faults }
    ensures lawful { IfOk result (IsFoundOn (M.sight m.old)) }
    ensures recovered { IfOk result (IsFoundIn (M.sight m.old)) }
    ensures refused { IfErr result (IsFaultOn (M.sight m.old)) }
{
    let replayed = replay(alloc, m)?;
    let lay = layout_of(&replayed.sizes);
    check(alloc, &lay, &replayed.words)?;
    let recovered = Recovered {
        number: replayed.number,
        words: replayed.words,
    };
    Ok((lay, recovered))
}

// The same fault of an image in memory, whose reads don't fail.
fn in_memory(fault: OpenFault) -> OpenFault
    ensures { result ≡ in_memory fault }
{
    match fault {
        OpenFault::Device => OpenFault::NoMemory,
        OpenFault::Unformatted
        | OpenFault::Damaged { .. }
        | OpenFault::NotDb { .. }
        | OpenFault::NoMemory => fault,
    }
}

/// Recovers an image in memory.
pub fn image_of(alloc: Global, words: &[u64]) -> Result<Recovered, OpenFault>
    ensures recovered { IfOk result (IsRecoveryOf words.now) }
    ensures lawful { IfOk result (λ found. IsLawful (sizes_of words.now) found.words.items) }
    ensures refused { IfErr result (IsFaultOf words.now) }
    ensures never_device { ¬ IsErrOf result Device }
{
    let mut image = PlainImage::new(words);
    match recover(alloc, &mut image) {
        Ok((_, recovered)) => Ok(recovered),
        Err(fault) => Err(in_memory(fault)),
    }
}
