//! What is printed of a run whose first file was held up, and of a stream whose requests were.

use crate::held::Held;
use crate::recovered::crashed;
use crate::streamed::Streamed;
use script_words::say_changed;
use std::io;
use tatp_model::{Done, Reply};

/// Prints how the run ended, what is done, the numbers in rising order, the last number, whether the second file passed while the
/// first one was held up, and what the two extreme images of a crash recover to.
pub fn say_held(rt: HostRuntime, held: &Held) -> io::Result<()> {
    let (end, last) = (held.ran.end, held.ran.last);
    print!(rt; "{end:?}:")?;
    for done in &held.ran.done {
        say_done(rt, done)?;
    }
    print!(rt; "\nnumbers")?;
    say_numbers(rt, &held.ran.done)?;
    println!(rt; ", last {last}")?;
    rt.println(if held.was_met {
        "the second file passed while the first one was held up"
    } else {
        "the first file was held up in vain"
    })?;
    for later in [false, true] {
        say_image(rt, held, later)?;
    }
    Ok(())
}

/// Prints which request is done, and how it was answered.
fn say_done(rt: HostRuntime, done: &Done) -> io::Result<()> {
    let (file, index) = (done.file, done.index);
    let reply = match done.reply {
        Reply::Changed => "changed",
        _ => "not changed",
    };
    print!(rt; " file {file} request {index} {reply}")
}

/// Prints the numbers of what is done, in rising order.
fn say_numbers(rt: HostRuntime, done: &[Done]) -> io::Result<()> {
    let mut numbers = Vec::new(rt.alloc());
    for done in done {
        numbers.push(done.number)?;
    }
    numbers.sort()?;
    for number in &numbers {
        print!(rt; " {number}")?;
    }
    Ok(())
}

/// Prints to what an extreme image of a crash recovers: the number, and the words that aren't those on which the run began.
fn say_image(rt: HostRuntime, held: &Held, later: bool) -> io::Result<()> {
    let values = if later { "later" } else { "settled" };
    match crashed(rt.alloc(), &held.ran.medium, later) {
        Some((number, home)) => {
            print!(rt; "{values} values: number {number},")?;
            say_changed(rt, &held.home, &home)
        }
        None => println!(rt; "{values} values: not recovered"),
    }
}

/// Prints how a stream ended, how many lines of each file and which last one it printed, and whether lines were out while requests
/// were held up.
pub fn say_streamed(rt: HostRuntime, streamed: &Streamed) -> io::Result<()> {
    let (status, (first, second)) = (streamed.status, streamed.lines);
    let last = last_line_of(&streamed.printed);
    println!(rt; "status {status}: {first} lines of file 1, {second} lines of file 2, {last}")?;
    rt.println(if streamed.was_met {
        "lines were out while requests were held up"
    } else {
        "a request was held up in vain"
    })
}

/// The last line of a text.
fn last_line_of(text: &[u8]) -> &str {
    let mut last = "";
    for line in str::from_utf8(text).unwrap_or("no text").lines() {
        last = line;
    }
    last
}
