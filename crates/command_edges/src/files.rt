//! The request files of a command are read, in order, before any of them is parsed.

ghost use Rattle.command_edges.specs.CommandFile.{request_files};
ghost use Rattle.command_edges.specs.Files.{AreOfFiles, AreInRange, AreFew, IsFileFault, MissingStops, BadStops};
ghost use Rattle.command_edges.specs.Reads.{ReadsInOrder};
ghost use Rattle.std.specs.Prelude.{◌≡◌, map, OnOk, IfOk, IfErr};
ghost use Rattle.std.specs.Result.{result_err};

use crate::fault::Fault;
use crate::file_kind::FileKind;
use crate::file_texts::read_texts;
use crate::file_wanted::want_files;
use crate::lists::parse_texts;
use dude_io::Files;
use std::alloc::Global;
use std::convert::AsStr;
use tatp_model::Request;

/// The requests of the files of these names. All files are read, in order, before any is parsed: one that isn't there is
/// answered before a bad one.
pub fn read_files<F: Files, S: AsStr>(
    alloc: Global,
    names: &[S],
    files: &mut F,
) -> Result<Vec<Vec<Request>>, Fault>
    ensures reads { ReadsInOrder (request_files (map S.text names.now)) (result_err result)
        (F.sight files.old) (F.sight files.new) }
    ensures calm { OnOk result ((F.sight files.new).faults ≡ (F.sight files.old).faults) }
    ensures read { IfOk result (AreOfFiles (F.sight files.old) (map S.text names.now)) }
    ensures in_range { IfOk result AreInRange }
    ensures few { IfOk result AreFew }
    ensures cause { IfErr result (IsFileFault F.sight (request_files (map S.text names.now))
        files.old files.new) }

    // Where the files are visible, a missing one is answered before a bad one, and a bad one is never passed over.
    ensures missing { MissingStops (F.sight files.old) (request_files (map S.text names.now))
        result }
    ensures bad { BadStops (F.sight files.old) (request_files (map S.text names.now)) result }
{
    let mut wanted = Vec::new(alloc);
    want_files(FileKind::Requests, names, &mut wanted)?;
    let texts = match read_texts(alloc, &wanted, files) {
        Ok(texts) => texts,
        Err(fault) => return Err(fault),
    };
    parse_texts(alloc, &texts, 0)
}
