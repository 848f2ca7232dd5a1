//! What a command starts from that runs files over the image at hand: they are read, and the image is opened and allows them.

ghost use Rattle.dude_program.specs.Prepared.{EndsUnprepared, IsPrepared};
ghost use Rattle.pmem_trait.specs.Sights.{IsAtRest};
ghost use Rattle.std.specs.Prelude.{IfErr, IfOk, map};
ghost use Rattle.std.specs.Rc.{rc_str_bytes};

use crate::checks::check_run;
use crate::ended::Ended;
use command_edges::read_files;
use command_openings::open_and_announce;
use dude_io::Files;
use dude_recover::Opened;
use pmem_trait::Medium;
use std::alloc::Global;
use std::rc::RcStr;
use tatp_model::Request;

/// The requests of a command's files, and the image that they may be run over.
#[derive(Drop)]
pub struct Prepared<M: Medium> {
    pub lists: Vec<Vec<Request>>,
    pub opened: Opened<M>,
}

/// Reads the files of these names, opens the image, and checks that it may run them with these frames. An `Err` is how a
/// command that is refused has ended.
pub fn prepare<M: Medium, F: Files>(
    alloc: Global,
    frames: Option<u64>,
    names: &[RcStr],
    medium: M,
    files: &mut F,
) -> Result<Prepared<M>, Ended<M>>
    requires settled { IsAtRest (M.sight medium) }
    ensures prepared { IfOk result (IsPrepared M.sight frames (map rc_str_bytes names.now) medium
        (F.sight files.old) (F.sight files.new)) }
    ensures ends { IfErr result (EndsUnprepared M.sight frames (map rc_str_bytes names.now) medium
        (F.sight files.old) (F.sight files.new)) }
{
    let lists = match read_files(alloc, names, files) {
        Ok(lists) => lists,
        Err(fault) => return Err(Ended::refused(alloc, fault, medium)),
    };
    let opened = match open_and_announce(alloc, medium) {
        Ok(opened) => opened,
        Err((fault, medium)) => return Err(Ended::refused(alloc, fault, medium)),
    };
    match check_run(&opened, frames, &lists) {
        Ok(()) => Ok(Prepared { lists, opened }),
        Err(fault) => Err(Ended::refused(alloc, fault, opened.back.into_medium())),
    }
}
