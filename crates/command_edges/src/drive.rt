//! `drive SEED COUNT FILES`.

ghost use Rattle.command_edges.specs.Clap.{drive_in, has_three_form, matched_rows};
ghost use Rattle.command_edges.specs.Command.{HasMeaning, behind_name, drive_of};
ghost use Rattle.std.specs.Prelude.{◌≡◌, true, map, IfOk};
ghost use Rattle.std.specs.Rc.{rc_str_bytes};

use crate::command::Command;
use crate::form::is_number;
use crate::matches::number_at;
use crate::numbers::{Number, numbers_in};
use clap::ArgMatches;
use dude_base::limits::MAX_RINGS;
use std::alloc::{AllocError, Global};
use std::rc::RcStr;

/// The most requests of each file of a load.
const MAX_COUNT: u64 = 99_999;

/// The command that the words behind the name mean.
pub fn drive_of(alloc: Global, words: &[RcStr]) -> Result<Option<Command<'_>>, AllocError>
    ensures { IfOk result (HasMeaning (behind_name drive_of (map rc_str_bytes words.now))) }
{
    match words {
        [_, seed, count, files] if is_number(seed) && is_number(count) && is_number(files) => {
            read_drive(alloc, words)
        }
        _ => Ok(None),
    }
}

// The same, by `clap`, of words that have the form.
fn read_drive(alloc: Global, words: &[RcStr]) -> Result<Option<Command<'_>>, AllocError>
    requires { has_three_form (map rc_str_bytes words.now) ≡ true }
    ensures { IfOk result (HasMeaning (behind_name drive_of (map rc_str_bytes words.now))) }
{
    // A load has at most a file for each ring.
    let numbers = [
        Number {
            id: "seed",
            low: 0,
            high: u64::MAX,
        },
        Number {
            id: "count",
            low: 0,
            high: MAX_COUNT,
        },
        Number {
            id: "files",
            low: 1,
            high: MAX_RINGS,
        },
    ];
    match numbers_in(alloc, "drive", &numbers, words)? {
        Some(matches) => Ok(drive_in(&matches)),
        None => Ok(None),
    }
}

// The command that the matches say.
fn drive_in<'a>(matches: &ArgMatches<'_>) -> Option<Command<'a>>
    ensures { HasMeaning (drive_in (matched_rows matches.now)) result }
{
    let seed = number_at(matches, "seed")?;
    let count = number_at(matches, "count")?;
    let files = number_at(matches, "files")?;
    Some(Command::Drive { seed, count, files })
}
