//! Commands on a medium, be it in memory or in a file, and on a back over one.

use crate::faulty_host::FaultyHost;
use crate::replays::{say_moments, say_replay, say_scan};
use crate::save::save_safe;
use crate::say::{say_back_fault, say_done, say_numbers, say_value, say_words};
use crate::trial::Trial;
use back_store::BackFault;
use dude_io::FilePmem;
use pmem_fake::MemPmem;
use pmem_trait::{Call, Failed, Medium};
use script_words::number_at;
use std::io;

/// What the calls of a script are made on.
#[derive(Drop)]
pub enum Subject {
    Nothing,
    Memory(MemPmem),
    File(FilePmem<FaultyHost>),
    Back(Trial),
}

impl Subject {
    /// Carries out a command.
    pub fn carry_out(&mut self, rt: HostRuntime, name: &str, numbers: &[u64]) -> io::Result<()> {
        match self {
            Subject::Memory(medium) => on_memory(rt, medium, name, numbers),
            Subject::File(medium) => on_file(rt, medium, name, numbers),
            Subject::Back(trial) => on_back(rt, trial, name, numbers),
            Subject::Nothing => rt.println("no command, or no medium"),
        }
    }
}

/// Carries out a command on a medium in memory.
fn on_memory(rt: HostRuntime, medium: &mut MemPmem, name: &str, numbers: &[u64]) -> io::Result<()> {
    match name {
        "image" => say_image(rt, medium, numbers),
        "crash" => say_crash(rt, medium, numbers),
        "content" => say_words(rt, medium.content()),
        "made" => say_made(rt, medium),
        "state" => say_state(rt, medium),
        _ => on_small_image(rt, medium, name, numbers),
    }
}

/// Carries out a command on a medium with the small image, or makes a call.
fn on_small_image(
    rt: HostRuntime,
    medium: &mut MemPmem,
    name: &str,
    numbers: &[u64],
) -> io::Result<()> {
    let number = number_at(numbers, 0);
    match name {
        "replay" => say_replay(rt, medium),
        "scan" => say_scan(rt, medium, number),
        "moments" => say_moments(rt, medium),
        "save" if medium.len() >= 16 => {
            say_done(rt, save_safe(medium, number, number_at(numbers, 1) != 0))
        }
        _ => make_call(rt, medium, name, numbers),
    }
}

/// Prints the image that a crash leaves at a moment, the first of these numbers; the others are its picks.
fn say_image(rt: HostRuntime, medium: &MemPmem, numbers: &[u64]) -> io::Result<()> {
    let (moment, picks) = numbers.split_first().unwrap_or((&0, &[]));
    match medium.images_at(rt.alloc(), *moment, picks) {
        Ok(image) => say_words(rt, &image),
        Err(fault) => rt.println(fault),
    }
}

/// Prints the image that a crash leaves now.
fn say_crash(rt: HostRuntime, medium: &MemPmem, picks: &[u64]) -> io::Result<()> {
    say_words(rt, &medium.crash(rt.alloc(), picks)?)
}

/// Prints the calls made, and which of them failed.
fn say_made(rt: HostRuntime, medium: &MemPmem) -> io::Result<()> {
    for made in medium.made() {
        say_call(rt, made.call)?;
        rt.println(if made.failed { " failed" } else { "" })?;
    }
    Ok(())
}

/// Prints a call.
fn say_call(rt: HostRuntime, call: Call) -> io::Result<()> {
    match call {
        Call::Read(at) => say_numbers(rt, "read", &[at]),
        Call::Put { at, value } => say_numbers(rt, "put", &[at, value]),
        Call::Flush(line) => say_numbers(rt, "flush", &[line]),
        Call::Fence => rt.print("fence"),
        Call::Tell(number) => say_numbers(rt, "tell", &[number]),
    }
}

/// Prints how many calls were made, and failed, and the last number told.
fn say_state(rt: HostRuntime, medium: &MemPmem) -> io::Result<()> {
    let calls = medium.now();
    let failed = medium.faults();
    let told = medium.told();
    println!(rt; "{calls} calls, {failed} failed, told {told:?}")
}

/// Carries out a command on a medium in a file.
fn on_file(
    rt: HostRuntime,
    medium: &mut FilePmem<FaultyHost>,
    name: &str,
    numbers: &[u64],
) -> io::Result<()> {
    match name {
        "note" => say_done(rt, note_lines(medium, numbers)),
        "size" => say_size(rt, medium),
        _ => make_call(rt, medium, name, numbers),
    }
}

/// Notes so many of the first lines, as far as the medium has them, each with a value in its first word, and puts a later value
/// there.
fn note_lines(medium: &mut FilePmem<FaultyHost>, numbers: &[u64]) -> Result<(), Failed> {
    let (value, later) = (number_at(numbers, 1), number_at(numbers, 2));
    for line in 0..number_at(numbers, 0) {
        if line < medium.len() / 8 {
            medium.put(8 * line, value)?;
            medium.flush(line)?;
            medium.put(8 * line, later)?;
        }
    }
    Ok(())
}

/// Prints how many words and calls a medium has.
pub fn say_size(rt: HostRuntime, medium: &FilePmem<FaultyHost>) -> io::Result<()> {
    let words = medium.len();
    let calls = medium.now();
    println!(rt; "{words} words, {calls} calls")
}

/// Makes a call, where its place lies within the medium, and prints its answer.
fn make_call<M: Medium>(
    rt: HostRuntime,
    medium: &mut M,
    name: &str,
    numbers: &[u64],
) -> io::Result<()> {
    let (words, at) = (medium.len(), number_at(numbers, 0));
    match name {
        "read" if at < words => say_value(rt, medium.read(at)),
        "put" if at < words => say_done(rt, medium.put(at, number_at(numbers, 1))),
        "flush" if at < words / 8 => say_done(rt, medium.flush(at)),
        "fence" => say_done(rt, medium.fence()),
        "tell" => say_done(rt, medium.tell(at)),
        _ => rt.println("no command, or no such place"),
    }
}

/// Carries out a command on a back.
fn on_back(rt: HostRuntime, trial: &mut Trial, name: &str, numbers: &[u64]) -> io::Result<()> {
    let page = number_at(numbers, 0);
    match name {
        "page" if page < 15 => say_page(rt, trial.page(page)),
        "numbers" => say_back_numbers(rt, trial),
        _ => rt.println("no command, or no such page"),
    }
}

/// Prints the words of a page, or why they weren't read.
fn say_page(rt: HostRuntime, found: Result<[u64; 64], BackFault>) -> io::Result<()> {
    match found {
        Ok(words) => say_words(rt, &words),
        Err(fault) => say_back_fault(rt, fault),
    }
}

/// Prints the numbers of a back, and whether it is dead.
fn say_back_numbers(rt: HostRuntime, trial: &Trial) -> io::Result<()> {
    let durable = trial.back.durable();
    let reproduced = trial.back.reproduced();
    let dead = trial.back.is_dead();
    println!(rt; "durable {durable}, reproduced {reproduced}, dead {dead}")
}
