//! Scripts of runs on threads, whose gate holds one thread up until another has passed it, and of streams, whose gate holds
//! requests up until lines are out. What is printed is certain, whatever the schedule.
#![tactic(auto)]

mod held;
mod image;
mod line_gate;
mod line_sink;
mod meeting_gate;
mod recovered;
mod saying;
mod streamed;
mod waits;

use crate::held::run_held;
use crate::saying::{say_held, say_streamed};
use crate::streamed::run_streamed;
use dude_base::sizes::Sizes;
use script_words::{is_remark, numbers_of, words_of};
use std::alloc::{AllocError, Global};
use std::io;
use std::thread::Threads;

/// Carries out a script, and prints what it leaves.
pub fn follow<R: Threads + Sync>(threads: &R, rt: HostRuntime, script: &str) -> io::Result<()> {
    for line in script.lines() {
        if is_remark(line) {
            rt.println(line)?;
        } else {
            take_line(threads, rt, line)?;
        }
    }
    Ok(())
}

/// Carries out a line that is no remark.
fn take_line<R: Threads + Sync>(threads: &R, rt: HostRuntime, line: &str) -> io::Result<()> {
    let words = words_of(rt.alloc(), line)?;
    match words.as_slice() {
        ["held", numbers @ ..] => hold(threads, rt, numbers),
        ["stream", numbers @ ..] => stream(threads, rt, numbers),
        _ => rt.println("nothing"),
    }
}

/// Runs two files over an image of these sizes, of which the first is held up, and prints what that leaves.
fn hold<R: Threads + Sync>(threads: &R, rt: HostRuntime, numbers: &[&str]) -> io::Result<()> {
    let sizes = sizes_of(rt.alloc(), numbers)?;
    match sizes.and_then(|sizes| run_held(threads, rt.alloc(), &sizes)) {
        Some(held) => say_held(rt, &held),
        None => rt.println("nothing"),
    }
}

/// Streams two files over an image of these sizes, and prints what that leaves.
fn stream<R: Threads + Sync>(threads: &R, rt: HostRuntime, numbers: &[&str]) -> io::Result<()> {
    let Some(sizes) = sizes_of(rt.alloc(), numbers)? else {
        return rt.println("nothing");
    };
    match run_streamed(threads, rt.alloc(), &sizes)? {
        Some(streamed) => say_streamed(rt, &streamed),
        None => rt.println("nothing"),
    }
}

/// The sizes that these words are: subscribers, calls, rings, and cells of a ring.
fn sizes_of(alloc: Global, words: &[&str]) -> Result<Option<Sizes>, AllocError> {
    let numbers = numbers_of(alloc, words)?;
    Ok(match numbers.as_deref() {
        Some([subscribers, calls, rings, cells]) => {
            Sizes::of(*subscribers, *calls, *rings, *cells).ok()
        }
        _ => None,
    })
}
