//! `format S C N CELLS`, and `xformat` with the same words.

ghost use Rattle.command_edges.specs.Clap.{format_in, has_format_form, matched_rows};
ghost use Rattle.command_edges.specs.Command.{HasMeaning, behind_name, format_of};
ghost use Rattle.std.specs.Prelude.{◌≡◌, true, map, IfOk};
ghost use Rattle.std.specs.Rc.{rc_str_bytes};

use crate::command::Command;
use crate::form::is_number;
use crate::matches::number_at;
use crate::numbers::{Number, numbers_in};
use clap::ArgMatches;
use dude_base::limits::{MAX_CALLS, MAX_CELLS, MAX_RINGS, MAX_SUBSCRIBERS, MIN_CELLS};
use std::alloc::{AllocError, Global};
use std::rc::RcStr;

/// The command that the words behind the name mean, of an image with an index or without.
pub fn format_of(
    alloc: Global,
    words: &[RcStr],
    indexed: bool,
) -> Result<Option<Command<'_>>, AllocError>
    ensures { IfOk result
        (HasMeaning (behind_name (format_of indexed) (map rc_str_bytes words.now))) }
{
    match words {
        [_, subscribers, calls, rings, cells]
            if is_number(subscribers) && is_number(calls) && is_number(rings) && is_number(cells) =>
            { read_format(alloc, words, indexed) }
        _ => Ok(None),
    }
}

// The same, by `clap`, of words that have the form.
fn read_format(
    alloc: Global,
    words: &[RcStr],
    indexed: bool,
) -> Result<Option<Command<'_>>, AllocError>
    requires { has_format_form (map rc_str_bytes words.now) ≡ true }
    ensures { IfOk result
        (HasMeaning (behind_name (format_of indexed) (map rc_str_bytes words.now))) }
{
    let numbers = [
        Number {
            id: "subscribers",
            low: 1,
            high: MAX_SUBSCRIBERS,
        },
        Number {
            id: "calls",
            low: 1,
            high: MAX_CALLS,
        },
        Number {
            id: "rings",
            low: 1,
            high: MAX_RINGS,
        },
        Number {
            id: "cells",
            low: MIN_CELLS,
            high: MAX_CELLS,
        },
    ];
    match numbers_in(alloc, "format", &numbers, words)? {
        Some(matches) => Ok(format_in(&matches, indexed)),
        None => Ok(None),
    }
}

// The command that the matches say.
fn format_in<'a>(matches: &ArgMatches<'_>, indexed: bool) -> Option<Command<'a>>
    ensures { HasMeaning (format_in indexed (matched_rows matches.now)) result }
{
    let subscribers = number_at(matches, "subscribers")?;
    let calls = number_at(matches, "calls")?;
    let rings = number_at(matches, "rings")?;
    let cells = number_at(matches, "cells")?;
    Some(Command::Format {
        indexed,
        subscribers,
        calls,
        rings,
        cells,
    })
}
