//! What is printed of outcomes, words and calls.

use crate::outcome::Outcome;
use crate::packets::{are_packets, print_cells};
use pmem_trait::{Call, Made};
use std::io;

/// Prints how a command ended, without its output.
pub fn print_ending(rt: &HostRuntime, outcome: &Outcome) -> io::Result<()> {
    let ending = outcome.ending(rt.alloc())?;
    rt.print(outcome.answer.as_str())?;
    rt.print(ending.as_str())
}

/// Prints the lines of the output. Of lines that follow one another and are the same, only one stands, with their count. Of
/// those that depend on the turns of threads, or whose order does, it prints how many there are. Of packets it prints the
/// words.
pub fn print_output(rt: &HostRuntime, outcome: &Outcome) -> io::Result<()> {
    let Some(printed) = &outcome.printed else {
        return Ok(());
    };
    if are_packets(printed) {
        return print_cells(rt, printed);
    }
    let printed = str::from_utf8(printed).unwrap_or("(no text)");
    let varies = outcome.depends_on_turns() || outcome.mixes_lines();
    if varies && printed.contains("last ") {
        return println!(rt; "| {} lines", printed.lines().count());
    }
    let mut lines = Vec::new(rt.alloc());
    for line in printed.lines() {
        lines.push(line)?;
    }
    let mut start = 0;
    for at in 0..lines.len() {
        if at + 1 == lines.len() || lines[at + 1] != lines[at] {
            print_times(rt, lines[at], at.saturating_sub(start) as u64)?;
            start = at + 1;
        }
    }
    if printed.is_empty() || printed.ends_with("\n") {
        Ok(())
    } else {
        rt.println("no end of the last line")
    }
}

/// Prints a line of the output that stands there so many times more.
fn print_times(rt: &HostRuntime, line: &str, more: u64) -> io::Result<()> {
    if more == 0 {
        println!(rt; "| {line}")
    } else {
        println!(rt; "| {line} ({} times)", more.saturating_add(1))
    }
}

/// Prints the words of an image from this one to that, those that follow one another and are equal in one line.
pub fn print_words(rt: &HostRuntime, image: &[u64], first: usize, last: usize) -> io::Result<()> {
    let mut start = first;
    for at in first..last.saturating_add(1) {
        let Some(value) = image.get(at) else {
            return println!(rt; "no word {at}");
        };
        if at == last || image.get(at + 1) != Some(value) {
            print_equal(rt, start, at, *value)?;
            start = at + 1;
        }
    }
    Ok(())
}

/// Prints words of one value.
fn print_equal(rt: &HostRuntime, first: usize, last: usize, value: u64) -> io::Result<()> {
    if first == last {
        println!(rt; "word {first} is {value}")
    } else {
        println!(rt; "words {first} to {last} are {value}")
    }
}

/// Prints these calls, those of a kind on places that follow one another in one line.
pub fn print_calls(rt: &HostRuntime, made: &[Made]) -> io::Result<()> {
    let mut start = 0;
    for at in 0..made.len() {
        let call = made[at].call;
        if at + 1 == made.len() || !goes_on(call, made[at + 1].call) {
            print_call(rt, call, at.saturating_sub(start) as u64)?;
            start = at + 1;
        }
    }
    Ok(())
}

/// Whether a second call is of the kind of the first, on the next place; reads follow each other on any place.
fn goes_on(first: Call, second: Call) -> bool {
    match first {
        Call::Put { at, .. } => {
            matches!(second, Call::Put { at: next, .. } if next == at.saturating_add(1))
        }
        Call::Flush(line) => matches!(second, Call::Flush(next) if next == line.saturating_add(1)),
        Call::Read(_) => matches!(second, Call::Read(_)),
        _ => false,
    }
}

/// Prints a call, before which so many of its kind were made.
fn print_call(rt: &HostRuntime, call: Call, before: u64) -> io::Result<()> {
    match call {
        Call::Put { at, value } if before == 0 => println!(rt; "put {value} in word {at}"),
        Call::Put { at, .. } => println!(rt; "put words {} to {at}", at.saturating_sub(before)),
        Call::Flush(line) => {
            println!(rt; "flush lines {} to {line}", line.saturating_sub(before))
        }
        Call::Fence => rt.println("fence"),
        Call::Tell(number) => println!(rt; "tell {number}"),
        Call::Read(_) => println!(rt; "read {} words", before.saturating_add(1)),
    }
}
