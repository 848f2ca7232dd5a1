//! A file is read to its end, or until it is longer than a limit.

ghost use Rattle.dude_io.specs.FileText.{IsBounded, IsReadFault, IsFileText};
ghost use Rattle.dude_io.specs.Files.{FilesStay};
ghost use Rattle.dude_io.specs.ReadsOfFile.{ReadsOnce};
ghost use Rattle.std.specs.Prelude.{◌≡◌, OnOk, IfOk, IfErr};

use crate::{FileFault, FileText, Files};
use std::alloc::Global;

const PIECE: usize = 4096;

/// Reads a file to its end, or until more than `limit` bytes came.
/// Each call but the last gives at least one byte, so there are at most `limit + 1` that do.
///
/// The first read that fails ends it. After an `Err` the texts are as they were, and the bytes that came are dropped.
pub fn read_file<F: Files>(
    alloc: Global,
    files: &mut F,
    name: &str,
    limit: u64,
) -> Result<FileText, FileFault>
    ensures stays { FilesStay (F.sight files.old) (F.sight files.new) }
    ensures bounded { IfOk result (IsBounded limit) }

    // It makes reads of this file alone, from byte 0 on, each from where the one before ended, and none failed but the last.
    ensures reads { ReadsOnce limit name.now result (F.sight files.old) (F.sight files.new) }

    // Where the files are visible, one that isn't there has no text, and a text is too long exactly over the limit.
    ensures text { IfOk result (IsFileText limit (F.sight files.old) name.now) }
    ensures calm { OnOk result ((F.sight files.new).faults ≡ (F.sight files.old).faults) }
    ensures cause { IfErr result (IsReadFault (F.sight files.old) (F.sight files.new)) }
{
    let mut bytes = Vec::new(alloc);
    let mut piece = [0; PIECE];
    'pieces: loop {
        let given = files.read(name, bytes.len() as u64, &mut piece)?;
        let is_end = given == 0;
        if is_end {
            return Ok(FileText::Whole(bytes));
        }
        if limit - (bytes.len() as u64) < given {
            return Ok(FileText::TooLong);
        }
        bytes.extend_from_slice(&piece[..given as usize])?;
    }
}
