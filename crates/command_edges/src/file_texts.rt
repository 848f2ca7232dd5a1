//! The texts of files.

ghost use Rattle.command_edges.specs.CommandFile.{file_limit, file_wanted, files_wanted};
ghost use Rattle.command_edges.specs.Files as asked;
ghost use Rattle.command_edges.specs.Reads.{ReadsInOrder};
ghost use Rattle.command_edges.specs.Texts.{AreTextsOf};
ghost use Rattle.dude_io.specs.FileText.{IsBounded, IsFileText, IsReadFault};
ghost use Rattle.dude_io.specs.Files.{FilesStay};
ghost use Rattle.dude_io.specs.ReadsOfFile.{ReadsOnce};
ghost use Rattle.std.specs.Prelude.{◌≡◌, OnOk, IfOk, IfErr};
ghost use Rattle.std.specs.Result.{result_err};

use crate::fault::Fault;
use crate::file_wanted::FileWanted;
use dude_io::{FileFault, FileText, Files, read_file};
use std::alloc::Global;

// What a file holds, or that it is too long.
fn read_wanted<F: Files>(
    alloc: Global,
    wanted: &FileWanted<'_>,
    files: &mut F,
) -> Result<FileText, FileFault>
    ensures stays { FilesStay (F.sight files.old) (F.sight files.new) }
    ensures bounded { IfOk result (IsBounded (file_limit (file_wanted wanted.now))) }
    ensures reads { ReadsOnce (file_limit (file_wanted wanted.now)) wanted.now.name.now result
        (F.sight files.old) (F.sight files.new) }
    ensures text { IfOk result
        (IsFileText (file_limit (file_wanted wanted.now)) (F.sight files.old) wanted.now.name.now) }
    ensures calm { OnOk result ((F.sight files.new).faults ≡ (F.sight files.old).faults) }
    ensures cause { IfErr result (IsReadFault (F.sight files.old) (F.sight files.new)) }
{
    read_file(alloc, files, wanted.name, wanted.kind.limit())
}

/// The texts of these files. The first one that can't be read ends it.
pub fn read_texts<F: Files>(
    alloc: Global,
    wanted: &[FileWanted<'_>],
    files: &mut F,
) -> Result<Vec<FileText>, Fault>
    ensures reads { ReadsInOrder (files_wanted wanted.now) (result_err result)
        (F.sight files.old) (F.sight files.new) }
    ensures calm { OnOk result ((F.sight files.new).faults ≡ (F.sight files.old).faults) }
    ensures read { IfOk result (AreTextsOf (F.sight files.old) (files_wanted wanted.now)) }
    ensures cause { IfErr result (asked.IsReadFault F.sight (files_wanted wanted.now)
        files.old files.new) }
{
    let mut texts = Vec::new(alloc);
    for (index, file) in wanted.iter().enumerate() {
        match read_wanted(alloc, file, files) {
            Ok(text) => texts.push(text)?,
            Err(FileFault::NoMemory) => return Err(Fault::Memory),
            Err(FileFault::Failed) => {
                return Err(Fault::File {
                    file: index as u64 + 1,
                });
            }
        }
    }
    Ok(texts)
}
