//! The events of views, and what views, words and frames have.

use crate::digest::digest_of;
use crate::entries::print_all_entries;
use crate::events::event_of;
use crate::facts::print_fact;
use crate::output::{print_maybe, print_no_command, print_numbers, print_pair};
use crate::parts::{cut, numbers_in};
use crate::stage::{Stage, place_in};
use crate::stores::ask_store;
use crate::whole_calls::make_whole;
use crate::words::word_of;
use dude_base::limits::PAGE;
use dude_core::{CoreWord, Event};
use std::io;

/// Prints what a word, a frame or the store has, or all entries.
pub fn ask_stage(
    rt: &HostRuntime,
    stage: &Stage,
    verb: &str,
    name: &str,
    numbers: &[u64],
) -> io::Result<()> {
    match verb {
        "entries" => print_all_entries(rt, stage),
        "digest" => print_numbers(rt, verb, &[digest_of(stage)]),
        "holds" => match word_of(cut(name).0, numbers) {
            Some(word) => print_maybe(rt, "holds", stage.found(word)),
            None => print_no_command(rt),
        },
        "frame" => print_frame(rt, stage, numbers),
        _ => ask_store(rt, stage, verb, numbers),
    }
}

/// Carries out what a view does, or is asked.
pub fn ask_view(
    rt: &HostRuntime,
    stage: &mut Stage,
    verb: &str,
    who: u64,
    rest: &str,
) -> io::Result<()> {
    match verb {
        "view" => make_each(rt, stage, who, rest, "allowed"),
        "off" => make_each(rt, stage, who, rest, "off"),
        "fills" => fill(rt, stage, who, rest),
        "shows" => match stage.core.view(who) {
            Some(view) => print_fact(rt, view, rest),
            None => rt.println("no view"),
        },
        _ => make_whole(rt, stage, verb, who, rest),
    }
}

/// Tries each of these events, up to the first that doesn't come out so; prints that one, or how many there are.
fn make_each(
    rt: &HostRuntime,
    stage: &mut Stage,
    who: u64,
    events: &str,
    wanted: &str,
) -> io::Result<()> {
    let mut count = 0_u64;
    for event in events.split("; ") {
        let word = make(rt, stage, who, event)?;
        if word != wanted {
            return print_came_out(rt, word, event);
        }
        count = count.saturating_add(1);
    }
    print_numbers(rt, wanted, &[count])
}

/// Prints what came of an event.
fn print_came_out(rt: &HostRuntime, word: &str, event: &str) -> io::Result<()> {
    rt.print(word)?;
    rt.print(": ")?;
    rt.println(event)
}

fn make(rt: &HostRuntime, stage: &mut Stage, who: u64, event: &str) -> io::Result<&'static str> {
    match event_of(rt.alloc(), event)? {
        Some(event) => Ok(stage.make(who, &event)),
        None => Ok("no command"),
    }
}

/// Fills home words of a page, in a row.
fn fill(rt: &HostRuntime, stage: &mut Stage, who: u64, words: &str) -> io::Result<()> {
    let numbers = numbers_in(rt.alloc(), words)?;
    let [page, frame, first, last] = numbers.as_slice() else {
        return print_no_command(rt);
    };
    let (page, frame) = (*page, *frame);
    let mut count = 0_u64;
    for at in *first..=*last {
        let word = stage.make(who, &Event::Fill { page, frame, at });
        if word != "allowed" {
            return print_numbers(rt, word, &[at]);
        }
        count = count.saturating_add(1);
    }
    print_numbers(rt, "allowed", &[count])
}

/// Prints the words of a frame that aren't the opening words of the page.
fn print_frame(rt: &HostRuntime, stage: &Stage, numbers: &[u64]) -> io::Result<()> {
    let [frame, page] = numbers else {
        return print_no_command(rt);
    };
    let (frame, page) = (*frame, *page);
    print!(rt; "frame {frame} holds page {page}")?;
    let mut comma = " but";
    for offset in 0..PAGE {
        let at = place_in(page, offset);
        let found = stage.found(CoreWord::FrameWord(place_in(frame, offset)));
        if found != Some(stage.opening_word(at)) {
            rt.print(comma)?;
            print_pair(rt, at, found.unwrap_or(0))?;
            comma = "";
        }
    }
    rt.println("")
}
