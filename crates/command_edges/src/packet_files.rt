//! The files of packets of a command are read, in order.

ghost use Rattle.command_edges.specs.CommandFile.{packet_files};
ghost use Rattle.command_edges.specs.Files.{IsReadFault, MissingStops};
ghost use Rattle.command_edges.specs.Reads.{ReadsInOrder};
ghost use Rattle.command_edges.specs.Texts.{AreTextsOf};
ghost use Rattle.std.specs.Prelude.{map, IfOk, IfErr};
ghost use Rattle.std.specs.Result.{result_err};

use crate::fault::Fault;
use crate::file_kind::FileKind;
use crate::file_texts::read_texts;
use crate::file_wanted::want_files;
use dude_io::{FileText, Files};
use std::alloc::Global;
use std::convert::AsStr;

/// The bytes of the files of these names, all read in order. Which packets they are depends on an image's sizes.
pub fn read_packet_files<F: Files, S: AsStr>(
    alloc: Global,
    names: &[S],
    files: &mut F,
) -> Result<Vec<FileText>, Fault>
    ensures reads { ReadsInOrder (packet_files (map S.text names.now)) (result_err result)
        (F.sight files.old) (F.sight files.new) }
    ensures read { IfOk result (AreTextsOf (F.sight files.old)
        (packet_files (map S.text names.now))) }
    ensures cause { IfErr result (IsReadFault F.sight (packet_files (map S.text names.now))
        files.old files.new) }
    ensures missing { MissingStops (F.sight files.old) (packet_files (map S.text names.now))
        result }
{
    let mut wanted = Vec::new(alloc);
    want_files(FileKind::Packets, names, &mut wanted)?;
    read_texts(alloc, &wanted, files)
}
