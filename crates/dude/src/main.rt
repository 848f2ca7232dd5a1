//! The program `dude`: durable TATP transactions over a memory image in a file.
//!
//! `dude IMAGE COMMAND ..` makes or opens the image, carries out the command's requests, prints its output, and announces on
//! standard error each number up to which all is durable. Where that is a terminal, a load shows its progress there instead.
#![tactic(auto)]

ghost use Rattle.command_edges.specs.Fault.{status_of};
ghost use Rattle.std.specs.Prelude.{◌≡◌, ◌⊎◌, Some};

mod driving;
mod grouped;
mod opening;
mod progress;
mod progress_runtime;
mod watched;

use crate::driving::{drive_shown, progress_of};
use crate::opening::fault_of;
use dude_io::{FilePmem, RealFiles, RealSink};
use dude_program::{Fault, fault_text};
use std::process::ExitCode;
use std::rc::RcStr;
use std::thread::Threads;
use std::{env, io};

/// What `--help` prints.
const HELP: &str = "usage: dude IMAGE COMMAND

IMAGE is a file. One that isn't there is made, with 33554432 bytes.

fresh S FILE
  Overwrites IMAGE, whatever it holds, with a new image for S subscribers (1 to
  10000), then carries out the requests of FILE.
format S C N CELLS
  Overwrites IMAGE with a new image for S subscribers, with room for C call
  forwardings (1 to 120000), and with N log rings (1 to 16) of so many CELLS
  (16 to 4096). The new tables have up to 12 call forwardings a subscriber.
xformat S C N CELLS
  Does what format does, and the image has an index of the subscribers'
  locations, which each update keeps.
run [--frames F] [--locks L] FILE..
  Opens IMAGE, carries out the requests of the files, each file on a thread of
  its own and at most one for each ring, and writes what they change. F pages
  are in memory at a time, from 32, or from IMAGE's pages where there are fewer,
  to its pages, as many as where it isn't said. L locks keep the threads apart,
  from 1 to 65536, and 1024 where it isn't said.
stream [--frames F] [--locks L] FILE..
  Does what run does, but prints each reply while others are still to come, and
  so before it is durable. In front of it stands the number of its file, from 1.
  The replies of a file come in their order, and the last number behind all.
recover
  Opens IMAGE, which writes what it recovers to, and prints its last number.
dump
  Opens IMAGE, which writes it as recover does, and prints its tables and its
  last number.
locate LOW HIGH LIMIT
  Opens IMAGE, which writes it as recover does, and prints the number and the
  location of each subscriber whose location is from LOW to HIGH (0 to
  4294967295), by location and then by number, at most LIMIT (1 to 10000), and
  its last number. It asks the index, or reads the tables where there is none.
drive SEED COUNT FILES
  Opens IMAGE, carries out COUNT random requests (0 to 99999) of each of so many
  FILES (1 to 16), each on a thread of its own, writes what they change, and
  prints how they were answered.
audit PRINTED FILE..
  Prints yes where PRINTED is what one thread could print that runs the files on
  IMAGE, which has to be a copy from before the run. Only reads IMAGE.
ship FILE..
  Opens IMAGE, carries out the requests of the files on one thread, at most one
  file for each ring, writes what they change, and prints its log as packets.
follow FILE..
  Opens IMAGE, and applies to it the packets of the files, in the order of their
  numbers whatever order they come in. IMAGE has to be a copy from before the
  ship, or one that followed. Prints the number reached, how many packets wait
  for others, and how many were dropped, being over 4096 that wait.

fresh, run and stream print each request's number and reply, and the last
number. Each command but audit tells on standard error the numbers up to which
all is durable; where that is a terminal, drive shows its progress there, and
tells the last one. While a command runs, every other on its IMAGE ends with 6.

status: 0 done, 2 usage, 3 a file couldn't be read, 4 a file isn't of requests or
packets, 5 the image doesn't fit or can't be opened, 6 the image failed or is in
use, 7 the output failed, 8 no memory, 9 the numbers may not be enough, 10
PRINTED is no such run, 11 a packet isn't of the leader of those before it
";

/// What `--version` prints.
const VERSION: &str = "dude 0.1.0\n";

fn main(rt: HostRuntime) -> ExitCode {
    ExitCode::from(status(&rt, rt))
}

/// Does what the command line says, and gives the status.
fn status<R: Threads + Sync>(threads: &R, rt: HostRuntime) -> u8 {
    let words = match words_of(&rt) {
        Ok(words) => words,
        Err(fault) => return fault_status(rt, fault),
    };
    match words.as_slice() {
        [] => fault_status(rt, Fault::Usage),
        [image, words @ ..] => match image.as_str() {
            "--help" => text_status(rt, HELP),
            "--version" => text_status(rt, VERSION),
            name => command_status(threads, rt, name, words),
        },
    }
}

/// The words of the command line behind the program's name. One that isn't UTF-8 is refused.
fn words_of(rt: &HostRuntime) -> Result<Vec<RcStr>, Fault> {
    let mut words = Vec::new(rt.alloc());
    let arguments = match env::args(rt) {
        Ok(arguments) => arguments,
        Err(error) if error.kind() == io::ErrorKind::OutOfMemory => return Err(Fault::Memory),
        Err(_) => return Err(Fault::Usage),
    };
    for argument in arguments.skip(1) {
        let Ok(word) = RcStr::from_string(argument) else {
            return Err(Fault::Memory);
        };
        if words.push(word).is_err() {
            return Err(Fault::Memory);
        }
    }
    Ok(words)
}

/// Carries out a command on the image of this name, and gives the status. A load on a terminal shows its progress there.
fn command_status<R: Threads + Sync>(
    threads: &R,
    rt: HostRuntime,
    name: &str,
    words: &[RcStr],
) -> u8 {
    let fault = match progress_of(rt, words) {
        Some(progress) => drive_shown(threads, rt, name, words, &progress),
        None => carry_out(threads, rt, name, words),
    };
    match fault {
        None => 0,
        Some(fault) => fault_status(rt, fault),
    }
}

/// Carries out a command on the image of this name, and gives the fault that it ends with.
fn carry_out<R: Threads + Sync>(
    threads: &R,
    rt: HostRuntime,
    name: &str,
    words: &[RcStr],
) -> Option<Fault> {
    let medium = match FilePmem::open(rt, name) {
        Ok(medium) => medium,
        Err(fault) => return Some(fault_of(fault)),
    };
    let mut files = RealFiles::new(rt);
    let mut out = RealSink::new(rt);
    dude_program::dude(threads, rt.alloc(), words, medium, &mut files, &mut out).fault
}

/// Prints a fault's line on standard error, and gives its status.
fn fault_status(rt: HostRuntime, fault: Fault) -> u8
    ensures { result ≡ status_of (Some fault) }
{
    let mut line = Vec::new(rt.alloc());
    let text = match fault_text(&fault, &mut line) {
        Ok(()) => str::from_utf8(&line).unwrap_or("memory\n"),
        Err(_) => "memory\n",
    };
    let _ = eprint!(rt; "{text}");
    fault.status()
}

/// Prints a text on standard output.
fn text_status(rt: HostRuntime, text: &str) -> u8
    ensures { (result ≡ 0) ⊎ (result ≡ status_of (Some Fault.Output)) }
{
    match print!(rt; "{text}") {
        Ok(()) => 0,
        Err(_) => fault_status(rt, Fault::Output),
    }
}
