//! A new image is made on a medium, and opened.

ghost use Rattle.command_openings.specs.Faults.{IsFaultOfFormat, IsFormatRefusal, IsSized};
ghost use Rattle.command_openings.specs.Openings.{IsOpeningOf, new_opening};
ghost use Rattle.command_openings.specs.Opens.{OpensImage, OpensImagePartly};
ghost use Rattle.dude_base.specs.Sizes.{IsAccepted};
ghost use Rattle.dude_recover.specs.Causes.{FitsImage};
ghost use Rattle.dude_recover.specs.Opened.{IsOpened};
ghost use Rattle.pmem_trait.specs.Sights.{IsAtRest};
ghost use Rattle.std.specs.Prelude.{true, IfOk, IfErr};

use command_edges::Fault;
use dude_base::sizes::Sizes;
use dude_recover::{FormatFault, Opened, make_image};
use pmem_trait::Medium;
use std::alloc::Global;
use tatp_layout::Layout;

// What a fault of making an image is for the command. The sizes were accepted.
fn fault_of(fault: FormatFault) -> Fault
    requires sized { IsSized fault }
    ensures { IsFaultOfFormat fault result }
{
    match fault {
        FormatFault::Size { .. } => unreachable!(),
        FormatFault::Small { has, needs } => Fault::Small { has, needs },
        FormatFault::TooFew { rows, calls } => Fault::TooFew { rows, calls },
        FormatFault::Device => Fault::Device,
        FormatFault::NoMemory => Fault::Memory,
    }
}

/// Makes a new image of these sizes on a medium, which tells its opening number, 0; and opens it.
pub fn make_and_open<M: Medium>(
    alloc: Global,
    medium: M,
    sizes: &Sizes,
) -> Result<Opened<M>, (Fault, M)>
    requires settled { IsAtRest (M.sight medium) }
    requires accepted { IsAccepted sizes.now }
    ensures opened { IfOk result IsOpened }
    ensures fits { IfOk result (λ o. FitsImage sizes.now (M.sight medium).len) }
    // At `Ok` the image is opened at the new opening.
    ensures opening { IfOk result (λ o. IsOpeningOf o (new_opening sizes.now)) }
    ensures is_open { IfOk result (OpensImage M.sight true (new_opening sizes.now) medium) }
    // Else a prefix of that is done.
    ensures prefix { IfErr result (OpensImagePartly M.sight true (new_opening sizes.now) medium) }
    ensures fault { IfErr result (IsFormatRefusal M.sight sizes.now medium) }
{
    let mut medium = medium;
    let Ok(lay) = Layout::of(sizes) else {
        unreachable!()
    };
    let words = match make_image(alloc, &mut medium, sizes) {
        Ok(words) => words,
        Err(fault) => return Err((fault_of(fault), medium)),
    };
    match Opened::new(alloc, medium, lay, words, 0) {
        Ok(opened) => Ok(opened),
        Err((_, medium)) => Err((Fault::Memory, medium)),
    }
}
