//! The image on a medium is recovered, and the medium only read.

ghost use Rattle.command_openings.specs.ImageRead.{IsImageOn, OnlyReadsImage};
ghost use Rattle.std.specs.Prelude.{IfOk};

use crate::fault::fault_of;
use command_edges::Fault;
use dude_base::sizes::Sizes;
use image_recovery::recover;
use pmem_trait::Medium;
use std::alloc::Global;
use tatp_check::tables_of;
use tatp_model::Tables;

/// An image that was only read: its sizes, its number and its tables.
#[derive(Drop)]
pub struct ImageRead {
    pub sizes: Sizes,
    pub number: u64,
    pub tables: Tables,
}

/// Recovers the image on a medium, which is only read.
pub fn read_image<M: Medium>(alloc: Global, medium: &mut M) -> Result<ImageRead, Fault>
    // At `Ok` the content recovers to the image's opening.
    ensures image { IfOk result (IsImageOn (M.sight medium.old)) }
    ensures reads { OnlyReadsImage result (M.sight medium.old) (M.sight medium.new) }
{
    let (lay, recovered) = match recover(alloc, medium) {
        Ok(found) => found,
        Err(fault) => return Err(fault_of(fault)),
    };
    match tables_of(alloc, &lay, &recovered.words) {
        Ok(tables) => Ok(ImageRead {
            sizes: lay.sizes(),
            number: recovered.number,
            tables,
        }),
        Err(_) => Err(Fault::Memory),
    }
}
