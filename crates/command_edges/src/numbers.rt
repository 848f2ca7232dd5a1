//! Commands whose words are all numbers.

ghost use Rattle.clap.specs.Words.{app_of, is_simple_and_free};
ghost use Rattle.command_edges.specs.Numbers.{ReadsAll, numbers_app};
ghost use Rattle.std.specs.Prelude.{◌≡◌, true, map, IfOk};
ghost use Rattle.std.specs.Rc.{rc_str_bytes};

use crate::matches::{matches_in, number};
use clap::{ArgMatches, Command};
use std::alloc::{AllocError, Global};
use std::rc::RcStr;

/// An argument that is a number, from the least to the greatest.
#[derive(Clone, Copy)]
pub struct Number<'a> {
    pub id: &'a str,
    pub low: u64,
    pub high: u64,
}

/// What `clap` makes of the words of a command that takes these numbers; none where it refuses them.
pub fn numbers_in<'a>(
    alloc: Global,
    name: &'a str,
    numbers: &[Number<'a>],
    words: &'a [RcStr],
) -> Result<Option<ArgMatches<'a>>, AllocError>
    requires { is_simple_and_free (numbers_app name.now numbers.now) ≡ true }
    ensures { IfOk result (ReadsAll name.entry.now numbers.now (map rc_str_bytes words.entry.now)) }
{
    matches_in(numbers_command(alloc, name, numbers)?, words)
}

fn numbers_command<'a>(
    alloc: Global,
    name: &'a str,
    numbers: &[Number<'a>],
) -> Result<Command<'a>, AllocError>
    ensures { IfOk result (λ command. app_of command ≡ numbers_app name.entry.now numbers.now) }
{
    let mut command = Command::new(alloc, name);
    for wanted in numbers {
        command = command.arg(number(alloc, wanted.id, wanted.low, wanted.high))?;
    }
    Ok(command)
}
