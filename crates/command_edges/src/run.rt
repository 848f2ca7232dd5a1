//! `run` and `stream`, with their two options and one or more files.

ghost use Rattle.clap.specs.Words.{app_of, rule_of};
ghost use Rattle.command_edges.specs.Clap.{files_rule, has_run_form, option_rule, run_app};
ghost use Rattle.command_edges.specs.Command.{HasMeaning, behind_name, in_front, run_of, run_words, stream_of};
ghost use Rattle.command_edges.specs.Run.{AreGiven, as_words, text_of};
ghost use Rattle.std.specs.Prelude.{◌≡◌, false, map, IfOk};
ghost use Rattle.std.specs.Rc.{rc_str_bytes};

use crate::command::Command;
use crate::form::{are_file_names, is_number_or_absent};
use crate::matches::{matches_in, number_at};
use crate::run_arguments::RunArguments;
use clap::Arg;
use clap::builder::ValueParser;
use dude_base::limits::MAX_LOCKS;
use std::alloc::{AllocError, Global};
use std::rc::RcStr;

/// The most frames that the words may ask for.
const MAX_FRAMES: u64 = 32_768;

// What stands behind the name: the words of the options' numbers, where they are there, and the files.
#[derive(Clone, Copy)]
struct RunWords<'a> {
    frames: Option<&'a RcStr>,
    locks: Option<&'a RcStr>,
    files: &'a [RcStr],
}

/// The command that the words behind the name mean.
pub fn run_of(alloc: Global, words: &[RcStr]) -> Result<Option<Command<'_>>, AllocError>
    ensures { IfOk result (HasMeaning (behind_name run_of (map rc_str_bytes words.now))) }
{
    match arguments_of(alloc, words)? {
        Some(given) => Ok(Some(Command::Run {
            frames: given.frames,
            locks: given.locks,
            files: given.files,
        })),
        None => Ok(None),
    }
}

/// The command that the words behind the name `stream` mean.
pub fn stream_of(alloc: Global, words: &[RcStr]) -> Result<Option<Command<'_>>, AllocError>
    ensures { IfOk result (HasMeaning (behind_name stream_of (map rc_str_bytes words.now))) }
{
    match arguments_of(alloc, words)? {
        Some(given) => Ok(Some(Command::Stream {
            frames: given.frames,
            locks: given.locks,
            files: given.files,
        })),
        None => Ok(None),
    }
}

// What the words behind the name give; none where they are refused.
fn arguments_of(alloc: Global, words: &[RcStr]) -> Result<Option<RunArguments<'_>>, AllocError>
    ensures { IfOk result (AreGiven (map rc_str_bytes words.now)) }
{
    let Some((_, behind)) = words.split_first() else {
        return Ok(None);
    };
    let given = run_words(behind);
    if !has_run_form(given) {
        return Ok(None);
    }
    let Some(matches) = matches_in(run_command(alloc)?, words)? else {
        return Ok(None);
    };
    Ok(Some(RunArguments {
        frames: number_at(&matches, "frames"),
        locks: number_at(&matches, "locks"),
        files: given.files,
    }))
}

fn has_run_form(given: RunWords<'_>) -> bool
    ensures { result ≡ has_run_form (as_words given.entry) }
{
    is_number_or_absent(given.frames)
        && is_number_or_absent(given.locks)
        && are_file_names(given.files)
}

// The options in front, each at most once, and what is behind them.
fn run_words(words: &[RcStr]) -> RunWords<'_>
    ensures { as_words result ≡ run_words (map rc_str_bytes words.now) }
{
    match words {
        [option, frames, rest @ ..] if option.as_str() == "--frames" => {
            let (locks, files) = in_front("--locks", rest);
            RunWords {
                frames: Some(frames),
                locks,
                files,
            }
        }
        [option, locks, rest @ ..] if option.as_str() == "--locks" => {
            let (frames, files) = in_front("--frames", rest);
            RunWords {
                frames,
                locks: Some(locks),
                files,
            }
        }
        files => RunWords {
            frames: None,
            locks: None,
            files,
        },
    }
}

// The number word of an option that may stand in front, and the words behind it.
fn in_front<'a>(option: &str, words: &'a [RcStr]) -> (Option<&'a RcStr>, &'a [RcStr])
    ensures number { text_of rc_str_bytes result.0
        ≡ (in_front option.now (map rc_str_bytes words.now)).0 }
    ensures rest { map rc_str_bytes result.1.now
        ≡ (in_front option.now (map rc_str_bytes words.now)).1 }
{
    match words {
        [word, number, rest @ ..] if word.as_str() == option => (Some(number), rest),
        _ => (None, words),
    }
}

fn run_command<'a>(alloc: Global) -> Result<clap::Command<'a>, AllocError>
    ensures { IfOk result (λ command. app_of command ≡ run_app) }
{
    clap::Command::new(alloc, "run")
        .arg(option(alloc, "frames", 1, MAX_FRAMES))?
        .arg(option(alloc, "locks", 1, MAX_LOCKS))?
        .arg(files(alloc))
}

fn option<'a>(alloc: Global, id: &'a str, low: u64, high: u64) -> Arg<'a>
    ensures rule { rule_of result ≡ option_rule id.entry.now low high }
    ensures local { result.global ≡ false }
{
    Arg::new(alloc, id)
        .long(id)
        .value_parser(ValueParser::unsigned(low, high))
}

fn files<'a>(alloc: Global) -> Arg<'a>
    ensures rule { rule_of result ≡ files_rule }
    ensures local { result.global ≡ false }
{
    Arg::new(alloc, "files").required(true).num_args(1..)
}
