//! Replies on their way to a sink while a run goes on, and behind it.

ghost use Rattle.dude_stream.specs.Lanes.{IsSameDrain, IsSameFeed};

use crate::stop::Stop;
use command_edges::Fault;
use dude_io::MemSink;
use dude_stream::{
    Drain, Feed, Lane, Outbox, Outlet, PrintFault, print_lanes, print_rest, write_lane,
};
use script_words::number_of;
use std::alloc::{AllocError, Global};
use std::sync::atomic::AtomicU64;
use tatp_model::{Done, Reply, Request};

/// Makes a lane of a file, with so much room, and carries out the moves: a number is sent, and another word takes the next
/// reply. Appends what each gave, and the lines of what is left in the lane.
pub fn lane(words: &[&str], out: &mut Vec<u8>) -> Result<(), Stop> {
    let ["file", file, "room", room, moves @ ..] = words else {
        return Err(Stop::NoCommand);
    };
    let (Some(file), Some(room)) = (number_of(file), number_of(room)) else {
        return Err(Stop::NoCommand);
    };
    if room == 0 || room > 64 {
        return Err(Stop::NoCommand);
    }
    let alloc = *out.allocator();
    let (mut feed, mut drain) = Lane::new(alloc, file, room)?;
    for word in moves {
        carry_out(word, file, &mut feed, &mut drain, out)?;
    }
    for done in &Lane::rest(alloc, feed, drain)? {
        write_lane(done, out)?;
    }
    Ok(())
}

/// Sends a number, or takes the next reply, and appends what that gave.
fn carry_out(
    word: &str,
    file: u64,
    feed: &mut Feed,
    drain: &mut Drain,
    out: &mut Vec<u8>,
) -> Result<(), Stop>
    ensures feed { IsSameFeed feed.old feed.new }
    ensures drain { IsSameDrain drain.old drain.new }
{
    let Some(number) = number_of(word) else {
        return Ok(push_next(drain.next(), out)?);
    };
    let sent = feed.send(&changed(file, 0, number));
    Ok(out.extend_from_slice(if sent { b"sent\n" } else { b"full\n" })?)
}

/// Appends the line of the next reply, where there is one.
fn push_next(next: Option<Done>, out: &mut Vec<u8>) -> Result<(), AllocError> {
    match next {
        Some(done) => write_lane(&done, out),
        None => out.extend_from_slice(b"none\n"),
    }
}

/// An update with this number.
fn changed(file: u64, index: u64, number: u64) -> Done {
    Done {
        file,
        index,
        number,
        wrote: true,
        request: Request::Sync,
        reply: Reply::Changed,
    }
}

/// What the workers of files did and sent.
#[derive(Drop)]
struct Sent {
    alloc: Global,
    done: Vec<Done>,
    /// How many requests each file has.
    counts: Vec<usize>,
    outlets: Vec<Outlet>,
}

impl Sent {
    /// Serves a file of updates with these numbers, between which commas stand, and sends what a lane with so much room takes.
    fn serve(&mut self, numbers: &str, room: u64) -> Result<(), Stop> {
        if room == 0 || room > 64 {
            return Err(Stop::NoCommand);
        }
        let file = self.counts.len() as u64;
        let mut done = Vec::new(self.alloc);
        for word in numbers.split(',') {
            let Some(number) = number_of(word) else {
                return Err(Stop::NoCommand);
            };
            done.push(changed(file, done.len() as u64, number))?;
        }
        let (feed, drain) = Lane::new(self.alloc, file, room)?;
        let mut outbox = Outbox { feed, sent: 0 };
        outbox.send_from(&done);
        self.outlets.push(Outlet {
            drain,
            left: done.len(),
        })?;
        self.counts.push(done.len())?;
        self.done.extend_from_slice(&done)?;
        Ok(())
    }

    /// Prints what was sent, and what is left behind it.
    fn print(&mut self, last: u64, sink: &mut MemSink) -> Result<Result<(), PrintFault>, Stop> {
        let mut text = Vec::new(self.alloc);
        let ended = AtomicU64::new(1);
        if let Err(fault) = print_lanes(&mut self.outlets, &ended, 1, &mut text, sink) {
            return Ok(Err(fault));
        }
        let mut printed = Vec::new(self.alloc);
        for (outlet, count) in self.outlets.iter().zip(self.counts.iter()) {
            printed.push(count.saturating_sub(outlet.left) as u64)?;
        }
        if !self.done.iter().all(|d| (d.file as usize) < printed.len()) {
            return Err(Stop::NoCommand);
        }
        Ok(print_rest(&self.done, &printed, last, &mut text, sink))
    }
}

/// Files of updates, each a word of their numbers, are served over lanes with so much room, and the last number is printed.
pub fn stream(
    alloc: Global,
    words: &[&str],
    sink: &mut MemSink,
) -> Result<Result<(), Fault>, Stop> {
    let ["room", room, "last", last, files @ ..] = words else {
        return Err(Stop::NoCommand);
    };
    let (Some(last), Some(room)) = (number_of(last), number_of(room)) else {
        return Err(Stop::NoCommand);
    };
    let mut sent = Sent {
        alloc,
        done: Vec::new(alloc),
        counts: Vec::new(alloc),
        outlets: Vec::new(alloc),
    };
    for numbers in files {
        sent.serve(numbers, room)?;
    }
    match sent.print(last, sink)? {
        Ok(()) => Ok(Ok(())),
        Err(PrintFault::Sink) => Ok(Err(Fault::Output)),
        Err(PrintFault::NoMemory) => Ok(Err(Fault::Memory)),
    }
}
