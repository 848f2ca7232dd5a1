//! A printed run and the request files that it is of are read.

ghost use Rattle.command_edges.specs.CommandFile.{audit_files};
ghost use Rattle.command_edges.specs.Files.{IsFileFault, MissingStops};
ghost use Rattle.command_edges.specs.PrintedRun.{AreOfRun};
ghost use Rattle.command_edges.specs.Reads.{ReadsInOrder};
ghost use Rattle.std.specs.Prelude.{map, IfOk, IfErr};
ghost use Rattle.std.specs.Result.{result_err};

use crate::fault::Fault;
use crate::file_kind::FileKind;
use crate::file_texts::read_texts;
use crate::file_wanted::{FileWanted, want_files};
use crate::lists::parse_texts;
use dude_io::{FileText, Files};
use std::alloc::Global;
use std::convert::AsStr;
use tatp_model::Request;

/// What a run printed, and the requests of its files.
#[derive(Drop)]
pub struct PrintedRun {
    pub printed: FileText,
    pub files: Vec<Vec<Request>>,
}

/// What a run printed, and the requests of the files of these names. All are read in order, the printed text first, before
/// any is parsed.
pub fn read_printed_run<F: Files, S: AsStr>(
    alloc: Global,
    printed: &str,
    names: &[S],
    files: &mut F,
) -> Result<PrintedRun, Fault>
    ensures reads { ReadsInOrder (audit_files printed.now (map S.text names.now))
        (result_err result)
        (F.sight files.old) (F.sight files.new) }
    ensures read { IfOk result (AreOfRun (F.sight files.old) printed.now (map S.text names.now)) }
    ensures cause { IfErr result (IsFileFault F.sight
        (audit_files printed.now (map S.text names.now))
        files.old files.new) }
    ensures missing { MissingStops (F.sight files.old)
        (audit_files printed.now (map S.text names.now)) result }
{
    let mut wanted = Vec::new(alloc);
    wanted.push(FileWanted {
        name: printed,
        kind: FileKind::Printed,
    })?;
    want_files(FileKind::Requests, names, &mut wanted)?;
    let mut texts = match read_texts(alloc, &wanted, files) {
        Ok(texts) => texts,
        Err(fault) => return Err(fault),
    };
    let lists = match parse_texts(alloc, &texts[1..], 1) {
        Ok(lists) => lists,
        Err(fault) => return Err(fault),
    };
    Ok(PrintedRun {
        printed: texts.remove(0),
        files: lists,
    })
}
