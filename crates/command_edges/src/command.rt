//! What the command words mean.

ghost use Rattle.command_edges.specs.Command.{HasMeaning, IsAlone, IsInLimits, meaning_of};
ghost use Rattle.std.specs.Prelude.{◌∷◌, drop, map, IfOk, IfSome};
ghost use Rattle.std.specs.Rc.{rc_str_bytes};

use crate::audit::audit_of;
use crate::drive::drive_of;
use crate::follow::follow_of;
use crate::format::format_of;
use crate::fresh::fresh_of;
use crate::locate::locate_of;
use crate::run::{run_of, stream_of};
use crate::ship::ship_of;
use std::alloc::{AllocError, Global};
use std::rc::RcStr;

/// What the program is to do.
#[derive(Clone, Copy, Debug)]
pub enum Command<'a> {
    /// Format the medium for so many subscribers, from 1 to 10,000, and run
    /// the requests of the file.
    Fresh {
        subscribers: u64,
        file: &'a str,
    },
    /// Format the medium for so many subscribers, call forwardings, rings and
    /// cells of a ring, with an index of the locations where `indexed`.
    Format {
        indexed: bool,
        subscribers: u64,
        calls: u64,
        rings: u64,
        cells: u64,
    },
    /// Run the requests of the files, of which there is at least one, over so
    /// many frames and locks.
    Run {
        frames: Option<u64>,
        locks: Option<u64>,
        files: &'a [RcStr],
    },
    /// Do the same, and print each reply while others are still to come.
    Stream {
        frames: Option<u64>,
        locks: Option<u64>,
        files: &'a [RcStr],
    },
    /// Recover the image.
    Recover,
    /// Print the tables of the image.
    Dump,
    /// Print the subscribers whose locations are in the range, at most so many,
    /// from 1 to 10,000. Each end of the range is below 2^32, and `low` may be
    /// over `high`.
    Locate {
        low: u64,
        high: u64,
        limit: u64,
    },
    /// Run a load that is made from a seed: so many requests of each file.
    Drive {
        seed: u64,
        count: u64,
        files: u64,
    },
    /// Say whether a file is the printed run of the files, of which there is
    /// at least one.
    Audit {
        printed: &'a str,
        files: &'a [RcStr],
    },
    /// Run the requests of the files, of which there is at least one, on one
    /// thread, and print the bundles of its log as packets.
    Ship {
        files: &'a [RcStr],
    },
    /// Apply the packets of the files, of which there is at least one, to the
    /// image.
    Follow {
        files: &'a [RcStr],
    },
}

/// The command that the words mean; none where they are refused.
pub fn command_of(alloc: Global, words: &[RcStr]) -> Result<Option<Command<'_>>, AllocError>
    ensures meaning { IfOk result (HasMeaning (meaning_of (map rc_str_bytes words.now))) }
    ensures limits { IfOk result (λ command. IfSome command IsInLimits) }
{
    let Some(name) = words.first() else {
        return Ok(None);
    };
    command_named(alloc, name.as_str(), words)
}

// The command of this name that the words behind the first one mean.
#[tactic(auto, using(crate::proofs::Limits::lawful))]
fn command_named<'a>(
    alloc: Global,
    name: &str,
    words: &'a [RcStr],
) -> Result<Option<Command<'a>>, AllocError>
    ensures meaning { IfOk result
        (HasMeaning (meaning_of (name.now ∷ drop 1 (map rc_str_bytes words.now)))) }
    ensures limits { IfOk result (λ command. IfSome command IsInLimits) }
{
    match name {
        "fresh" => fresh_of(alloc, words),
        "format" => format_of(alloc, words, false),
        "xformat" => format_of(alloc, words, true),
        "run" => run_of(alloc, words),
        "stream" => stream_of(alloc, words),
        "recover" => Ok(alone(words, Command::Recover)),
        "dump" => Ok(alone(words, Command::Dump)),
        "locate" => locate_of(alloc, words),
        "drive" => drive_of(alloc, words),
        "audit" => Ok(audit_of(words)),
        "ship" => Ok(ship_of(words)),
        "follow" => Ok(follow_of(words)),
        _ => Ok(None),
    }
}

// A command with no word behind its name.
fn alone<'a>(words: &[RcStr], command: Command<'a>) -> Option<Command<'a>>
    ensures { IsAlone (map rc_str_bytes words.now) command.entry result }
{
    match words {
        [_, _, ..] => None,
        _ => Some(command),
    }
}
