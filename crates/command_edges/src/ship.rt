//! `ship FILE..`.

ghost use Rattle.command_edges.specs.Command.{HasMeaning, behind_name, ship_of};
ghost use Rattle.std.specs.Prelude.{map};
ghost use Rattle.std.specs.Rc.{rc_str_bytes};

use crate::command::Command;
use crate::form::are_file_names;
use std::rc::RcStr;

/// The command that the words behind the name mean. They are names of files alone, so `clap` has nothing to read.
pub fn ship_of(words: &[RcStr]) -> Option<Command<'_>>
    ensures { HasMeaning (behind_name ship_of (map rc_str_bytes words.now)) result }
{
    match words {
        [_, files @ ..] if are_file_names(files) => Some(Command::Ship { files }),
        _ => None,
    }
}
