//! The files that a command is to read.

ghost use Rattle.command_edges.specs.CommandFile.{files_of, files_wanted};
ghost use Rattle.std.specs.Prelude.{◌≡◌, ◌++◌, map, OnOk};

use crate::file_kind::FileKind;
use std::alloc::AllocError;
use std::convert::AsStr;

/// A file that a command is to read.
#[derive(Clone, Copy)]
pub struct FileWanted<'a> {
    pub name: &'a str,
    pub kind: FileKind,
}

/// Adds files of this kind and these names.
pub fn want_files<'a, S: AsStr>(
    kind: FileKind,
    names: &'a [S],
    wanted: &mut Vec<FileWanted<'a>>,
) -> Result<(), AllocError>
    ensures { OnOk result (files_wanted wanted.new.items
        ≡ files_wanted wanted.old.items ++ files_of kind (map S.text names.now)) }
{
    for name in names {
        wanted.push(FileWanted {
            name: name.as_str(),
            kind,
        })?;
    }
    Ok(())
}
