//! The image on a medium is opened, and its opening number told.

ghost use Rattle.command_openings.specs.Announcing.{FailsTelling, IsAnnounced, IsSameImage, RanTelling, RisesFaults, ShowsWhileTelling};
ghost use Rattle.command_openings.specs.Faults.{IsOpenRefusal};
ghost use Rattle.command_openings.specs.Opens.{OpensOwn, OpensOwnPartly, OnlyReadsUnopened, RecoversOwn};
ghost use Rattle.dude_recover.specs.Opened.{IsOpened};
ghost use Rattle.pmem_trait.specs.Sights.{IsAtRest};
ghost use Rattle.std.specs.Prelude.{IfOk, IfErr};

use crate::fault::fault_of;
use command_edges::Fault;
use dude_recover::{Opened, open};
use pmem_trait::Medium;
use std::alloc::Global;

// Tells the opening number of an opened image.
fn announce<M: Medium>(opened: Opened<M>) -> Result<Opened<M>, (Fault, M)>
    requires opened { IsOpened opened }
    ensures opened { IfOk result IsOpened }
    ensures same { IfOk result (IsSameImage opened) }
    ensures announced { IfOk result (IsAnnounced M.sight opened) }
    ensures cause { IfErr result (RisesFaults M.sight opened) }
    ensures failed { IfErr result (FailsTelling M.sight opened) }
    ensures ran { RanTelling M.sight opened result }
    ensures moments { ShowsWhileTelling M.sight opened result }
{
    let mut opened = opened;
    match opened.back.announce() {
        Ok(_) => Ok(opened),
        Err(_) => Err((Fault::Device, opened.back.into_medium())),
    }
}

/// Opens the image on a medium, and tells its opening number.
pub fn open_and_announce<M: Medium>(alloc: Global, medium: M) -> Result<Opened<M>, (Fault, M)>
    requires settled { IsAtRest (M.sight medium) }
    ensures opened { IfOk result IsOpened }
    // At `Ok` the content recovers to the opening of the image, and the image is opened at it.
    ensures is_open { IfOk result (OpensOwn M.sight medium) }
    ensures recovered { IfOk result (RecoversOwn M.sight medium) }
    // Else a prefix of that is done.
    ensures prefix { IfErr result (OpensOwnPartly M.sight medium) }
    ensures fault { IfErr result (IsOpenRefusal M.sight medium) }
    // Where the content recovers to nothing, the medium is only read.
    ensures only_read { OnlyReadsUnopened M.sight medium result }
{
    match open(alloc, medium) {
        Ok(opened) => announce(opened),
        Err((fault, medium)) => Err((fault_of(fault), medium)),
    }
}
