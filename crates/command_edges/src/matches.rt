//! `clap`'s arguments and matches.

ghost use Rattle.clap.specs.Words.{app_of, first_of, is_simple_and_free, rule_of};
ghost use Rattle.command_edges.specs.Clap.{IsReading, matched_rows, number_of, number_rule};
ghost use Rattle.std.specs.Option.{option_map};
ghost use Rattle.std.specs.Prelude.{◌≡◌, map, IfOk, true, false};
ghost use Rattle.std.specs.Rc.{rc_str_bytes};

use clap::builder::ValueParser;
use clap::error::ErrorKind;
use clap::{Arg, ArgMatches, Command};
use std::alloc::{AllocError, Global};
use std::rc::RcStr;

/// What `clap` makes of the words; none where it refuses them.
pub fn matches_in<'a>(
    command: Command<'a>,
    words: &'a [RcStr],
) -> Result<Option<ArgMatches<'a>>, AllocError>
    requires { is_simple_and_free (app_of command) ≡ true }
    ensures { IfOk result (IsReading (app_of command.entry) (map rc_str_bytes words.entry.now)) }
{
    match command.try_get_matches_from(words) {
        Ok(matches) => Ok(Some(matches)),
        Err(error) => match error.kind() {
            ErrorKind::OutOfMemory => Err(AllocError),
            _ => Ok(None),
        },
    }
}

/// An argument that is a number.
pub fn number<'a>(alloc: Global, id: &'a str, low: u64, high: u64) -> Arg<'a>
    ensures rule { rule_of result ≡ number_rule id.entry.now low high }
    ensures local { result.global ≡ false }
{
    Arg::new(alloc, id)
        .required(true)
        .value_parser(ValueParser::unsigned(low, high))
}

/// The number that an argument has.
pub fn number_at(matches: &ArgMatches<'_>, id: &str) -> Option<u64>
    ensures { result ≡ number_of id.now (matched_rows matches.now) }
{
    matches.get_one::<u64>(id)
}

/// The text that an argument has.
pub fn text_at<'a>(matches: &ArgMatches<'a>, id: &str) -> Option<&'a str>
    ensures { option_map (λ text. text.now) result ≡ first_of id.now (matched_rows matches.now) }
{
    matches.get_str(id)
}
