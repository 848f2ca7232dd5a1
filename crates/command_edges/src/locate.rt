//! `locate LOW HIGH LIMIT`.

ghost use Rattle.command_edges.specs.Clap.{has_three_form, locate_in, matched_rows};
ghost use Rattle.command_edges.specs.Command.{HasMeaning, behind_name, locate_of};
ghost use Rattle.std.specs.Prelude.{◌≡◌, true, map, IfOk};
ghost use Rattle.std.specs.Rc.{rc_str_bytes};

use crate::command::Command;
use crate::form::is_number;
use crate::matches::number_at;
use crate::numbers::{Number, numbers_in};
use clap::ArgMatches;
use std::alloc::{AllocError, Global};
use std::rc::RcStr;

/// The greatest location.
const MAX_LOCATION: u64 = 4_294_967_295;

/// The most lines that may be asked for.
const MAX_LIMIT: u64 = 10_000;

/// The command that the words behind the name mean.
pub fn locate_of(alloc: Global, words: &[RcStr]) -> Result<Option<Command<'_>>, AllocError>
    ensures { IfOk result (HasMeaning (behind_name locate_of (map rc_str_bytes words.now))) }
{
    match words {
        [_, low, high, limit] if is_number(low) && is_number(high) && is_number(limit) => {
            read_locate(alloc, words)
        }
        _ => Ok(None),
    }
}

// The same, by `clap`, of words that have the form.
fn read_locate(alloc: Global, words: &[RcStr]) -> Result<Option<Command<'_>>, AllocError>
    requires { has_three_form (map rc_str_bytes words.now) ≡ true }
    ensures { IfOk result (HasMeaning (behind_name locate_of (map rc_str_bytes words.now))) }
{
    let numbers = [
        Number {
            id: "low",
            low: 0,
            high: MAX_LOCATION,
        },
        Number {
            id: "high",
            low: 0,
            high: MAX_LOCATION,
        },
        Number {
            id: "limit",
            low: 1,
            high: MAX_LIMIT,
        },
    ];
    match numbers_in(alloc, "locate", &numbers, words)? {
        Some(matches) => Ok(locate_in(&matches)),
        None => Ok(None),
    }
}

// The command that the matches say.
fn locate_in<'a>(matches: &ArgMatches<'_>) -> Option<Command<'a>>
    ensures { HasMeaning (locate_in (matched_rows matches.now)) result }
{
    let low = number_at(matches, "low")?;
    let high = number_at(matches, "high")?;
    let limit = number_at(matches, "limit")?;
    Some(Command::Locate { low, high, limit })
}
