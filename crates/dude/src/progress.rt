//! How far a load has come, in a line on the terminal.

use crate::grouped::Grouped;
use request_attempts::gate::Gate;
use std::io;
use std::sync::atomic::{AtomicU64, Ordering};
use std::time::{Duration, Instant};

/// Where no line stands on the terminal.
const NO_LINE: u64 = u64::MAX;

/// How far a load has come, in a line on the terminal that is written anew up to ten times a second. Its threads note here what
/// they do.
#[derive(Drop)]
pub struct Progress {
    rt: HostRuntime,
    start: Instant,
    /// How many requests the load has.
    requests: u64,
    /// Of each file the index of the last request that came to its commit, and so how many are done.
    reached: Vec<AtomicU64>,
    syncs: AtomicU64,
    /// The last number told.
    durable: AtomicU64,
    /// In which tenth of a second from the start the line was written.
    written: AtomicU64,
}

impl Progress {
    /// Nothing is done yet of a load of so many requests in each of so many files. There is nothing to note it in where there is
    /// no memory or no clock.
    pub fn new(rt: HostRuntime, files: u64, count: u64) -> Option<Progress> {
        let mut reached = Vec::new(rt.alloc());
        for _ in 0..files {
            reached.push(AtomicU64::new(0)).ok()?;
        }
        Some(Progress {
            rt,
            start: Instant::now(&rt).ok()?,
            requests: files.saturating_mul(count),
            reached,
            syncs: AtomicU64::new(0),
            durable: AtomicU64::new(0),
            written: AtomicU64::new(NO_LINE),
        })
    }

    /// Counts a sync.
    pub fn count_sync(&self) {
        self.syncs.fetch_add(1, Ordering::SeqCst);
    }

    /// Notes that this number is told.
    pub fn note_told(&self, number: u64) {
        self.durable.store(number, Ordering::SeqCst);
    }

    /// Writes the line, unless it was written in this tenth of a second.
    pub fn show(&self) -> io::Result<()> {
        let time = self.start.elapsed(&self.rt)?;
        let tenth = millis_of(time) / 100;
        if self.written.swap(tenth, Ordering::SeqCst) == tenth {
            return Ok(());
        }
        self.write_line(self.done(), time)
    }

    /// Ends the line, where one stands, and says the last number told behind it.
    pub fn end(&self, is_whole: bool) -> io::Result<()> {
        if self.written.swap(NO_LINE, Ordering::SeqCst) == NO_LINE {
            return Ok(());
        }
        let done = if is_whole { self.requests } else { self.done() };
        self.write_line(done, self.start.elapsed(&self.rt)?)?;
        let durable = self.durable.load(Ordering::SeqCst);
        eprint!(self.rt; "\ndurable {durable}\n")
    }

    /// How many requests are done.
    fn done(&self) -> u64 {
        let mut done = 0_u64;
        for reached in &self.reached {
            done = done.saturating_add(reached.load(Ordering::SeqCst));
        }
        done
    }

    /// Writes the line anew.
    fn write_line(&self, done: u64, time: Duration) -> io::Result<()> {
        let syncs = self.syncs.load(Ordering::SeqCst);
        let rate = syncs.saturating_mul(1_000) / millis_of(time).max(1);
        eprint!(self.rt;
            "\r{} of {} requests, durable {}, {} syncs a second  ",
            Grouped(done),
            Grouped(self.requests),
            Grouped(self.durable.load(Ordering::SeqCst)),
            Grouped(rate)
        )
    }
}

/// The whole milliseconds of a time.
fn millis_of(time: Duration) -> u64 {
    u64::try_from(time.as_millis()).unwrap_or(0)
}

impl Gate for Progress {
    fn pass(&self, file: u64, index: u64) {
        if let Some(reached) = self.reached.get(file as usize) {
            reached.store(index, Ordering::SeqCst);
        }
    }
}
