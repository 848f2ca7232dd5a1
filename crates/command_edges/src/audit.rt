//! `audit PRINTED FILE..`.

ghost use Rattle.command_edges.specs.Command.{HasMeaning, audit_of, behind_name};
ghost use Rattle.std.specs.Prelude.{map};
ghost use Rattle.std.specs.Rc.{rc_str_bytes};

use crate::command::Command;
use crate::form::{are_file_names, is_file_name};
use std::rc::RcStr;

/// The command that the words behind the name mean. They are names of files alone, so `clap` has nothing to read.
pub fn audit_of(words: &[RcStr]) -> Option<Command<'_>>
    ensures { HasMeaning (behind_name audit_of (map rc_str_bytes words.now)) result }
{
    match words {
        [_, printed, files @ ..] if is_file_name(printed) && are_file_names(files) => {
            Some(Command::Audit {
                printed: printed.as_str(),
                files,
            })
        }
        _ => None,
    }
}
