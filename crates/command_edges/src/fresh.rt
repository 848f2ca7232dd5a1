//! `fresh S FILE`.

ghost use Rattle.clap.specs.Words.{app_of, rule_of};
ghost use Rattle.command_edges.specs.Clap.{file_rule, fresh_app, fresh_in, has_fresh_form, matched_rows};
ghost use Rattle.command_edges.specs.Command.{HasMeaning, behind_name, fresh_of};
ghost use Rattle.std.specs.Prelude.{◌≡◌, false, true, map, IfOk};
ghost use Rattle.std.specs.Rc.{rc_str_bytes};

use crate::command::Command;
use crate::form::{is_file_name, is_number};
use crate::matches::{matches_in, number, number_at, text_at};
use clap::{Arg, ArgMatches};
use dude_base::limits::MAX_SUBSCRIBERS;
use std::alloc::{AllocError, Global};
use std::rc::RcStr;

/// The command that the words behind the name mean.
pub fn fresh_of(alloc: Global, words: &[RcStr]) -> Result<Option<Command<'_>>, AllocError>
    ensures { IfOk result (HasMeaning (behind_name fresh_of (map rc_str_bytes words.now))) }
{
    match words {
        [_, subscribers, file] if is_number(subscribers) && is_file_name(file) => {
            read_fresh(alloc, words)
        }
        _ => Ok(None),
    }
}

// The same, by `clap`, of words that have the form.
fn read_fresh(alloc: Global, words: &[RcStr]) -> Result<Option<Command<'_>>, AllocError>
    requires { has_fresh_form (map rc_str_bytes words.now) ≡ true }
    ensures { IfOk result (HasMeaning (behind_name fresh_of (map rc_str_bytes words.now))) }
{
    match matches_in(fresh_command(alloc)?, words)? {
        Some(matches) => Ok(fresh_in(&matches)),
        None => Ok(None),
    }
}

// The command that the matches say.
fn fresh_in<'a>(matches: &ArgMatches<'a>) -> Option<Command<'a>>
    ensures { HasMeaning (fresh_in (matched_rows matches.now)) result }
{
    let subscribers = number_at(matches, "subscribers")?;
    let file = text_at(matches, "file")?;
    Some(Command::Fresh { subscribers, file })
}

fn fresh_command<'a>(alloc: Global) -> Result<clap::Command<'a>, AllocError>
    ensures { IfOk result (λ command. app_of command ≡ fresh_app) }
{
    clap::Command::new(alloc, "fresh")
        .arg(number(alloc, "subscribers", 1, MAX_SUBSCRIBERS))?
        .arg(file(alloc))
}

fn file<'a>(alloc: Global) -> Arg<'a>
    ensures rule { rule_of result ≡ file_rule }
    ensures local { result.global ≡ false }
{
    Arg::new(alloc, "file").required(true)
}
