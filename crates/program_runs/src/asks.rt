//! The lines that ask for something.

use crate::found::{found_text, recovered};
use crate::outcome::Outcome;
use crate::printing::{print_calls, print_words};
use crate::setup::changed;
use crate::wanted::Wanted;
use dude_base::field::Field;
use dude_recover::FormatFault;
use pmem_trait::{Call, Medium};
use script_words::{number_of, numbers_of};
use std::io;
use tatp_model::Done;

/// Prints what a line asks for of the image or of what the last command left; `false` where it asks for nothing.
pub fn ask(
    rt: &HostRuntime,
    image: &[u64],
    outcome: &Outcome,
    first: &str,
    rest: &[&str],
) -> io::Result<bool> {
    match first {
        "show" => show(rt, image, rest),
        "recover" => recover(rt, image, rest),
        _ => match numbers_of(rt.alloc(), rest)? {
            Some(numbers) => ask_with(rt, image, outcome, first, &numbers),
            None => Ok(false),
        },
    }
}

/// `show PLACE ..`: words of the image, each place one word or FIRST:LAST.
fn show(rt: &HostRuntime, image: &[u64], rest: &[&str]) -> io::Result<bool> {
    for place in rest {
        let (first, last) = place.split_once(':').unwrap_or((place, place));
        let (Some(first), Some(last)) = (number_of(first), number_of(last)) else {
            return Ok(false);
        };
        print_words(rt, image, first as usize, last as usize)?;
    }
    Ok(true)
}

/// `recover WORD=VALUE ..`: what the image recovers to, with these words in place of its own.
fn recover(rt: &HostRuntime, image: &[u64], rest: &[&str]) -> io::Result<bool> {
    let Some(image) = changed(rt.alloc(), image, rest)? else {
        return Ok(false);
    };
    let found = recovered(rt.alloc(), &image);
    let text = found_text(rt.alloc(), &image, &image, &found)?;
    rt.print(text.as_str())?;
    Ok(true)
}

/// The lines with numbers.
fn ask_with(
    rt: &HostRuntime,
    image: &[u64],
    outcome: &Outcome,
    first: &str,
    numbers: &[u64],
) -> io::Result<bool> {
    match (first, numbers) {
        ("request", [index]) => print_request(rt, outcome.done.get(*index as usize))?,
        ("moments", [most]) => print_moments(rt, outcome, *most)?,
        ("fences", [least, most]) => print_fences(rt, outcome, *least, *most)?,
        (_, []) => return ask_plain(rt, image, outcome, first),
        _ => return Ok(false),
    }
    Ok(true)
}

/// The lines with nothing else.
fn ask_plain(rt: &HostRuntime, image: &[u64], outcome: &Outcome, first: &str) -> io::Result<bool> {
    match first {
        "length" => println!(rt; "{} words", image.len())?,
        "count" => {
            let words = outcome.medium.content().len();
            let calls = outcome.medium.now();
            println!(rt; "{words} words, {calls} calls")?;
        }
        "calls" => print_calls(rt, outcome.medium.made())?,
        "next" => rt.println(if outcome.next_fail {
            "the next read fails, the next write fails"
        } else {
            "the next read or write doesn't fail"
        })?,
        "texts" => print_texts(rt)?,
        _ => return Ok(false),
    }
    Ok(true)
}

/// Prints a request that was done.
fn print_request(rt: &HostRuntime, done: Option<&Done>) -> io::Result<()> {
    let Some(done) = done else {
        return rt.println("no such request");
    };
    let kind = if done.wrote { "wrote" } else { "only read" };
    let (file, index, number) = (done.file, done.index, done.number);
    println!(rt; "file {file} request {index} number {number} {kind}")
}

/// Prints whether so many fences were made.
fn print_fences(rt: &HostRuntime, outcome: &Outcome, least: u64, most: u64) -> io::Result<()> {
    let mut count = 0_u64;
    for made in outcome.medium.made() {
        if matches!(made.call, Call::Fence) {
            count = count.saturating_add(1);
        }
    }
    if least <= count && count <= most {
        println!(rt; "from {least} to {most} fences")
    } else {
        println!(rt; "{count} fences")
    }
}

/// Prints whether both images of each moment are right.
fn print_moments(rt: &HostRuntime, outcome: &Outcome, most: u64) -> io::Result<()> {
    let wanted = Wanted::counted(rt.alloc(), &outcome.before, most);
    match wanted.first_wrong(rt.alloc(), &outcome.medium)? {
        None => rt.println("both images of each moment are right"),
        Some((moment, later)) => {
            let which = if later { "later" } else { "settled" };
            println!(rt; "the {which} image of moment {moment} is wrong")
        }
    }
}

/// Prints the text of each reason why no image is made.
fn print_texts(rt: &HostRuntime) -> io::Result<()> {
    let faults = [
        FormatFault::Size {
            field: Field::Subscribers,
        },
        FormatFault::Small { has: 3, needs: 5 },
        FormatFault::TooFew {
            rows: 28,
            calls: 27,
        },
        FormatFault::Device,
        FormatFault::NoMemory,
    ];
    for fault in &faults {
        println!(rt; "{fault}")?;
    }
    Ok(())
}
