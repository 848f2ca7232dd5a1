//! A gate at which the requests of files wait for lines of replies.

use crate::waits::Waits;
use request_attempts::gate::Gate;
use std::alloc::{AllocError, Global};
use std::sync::atomic::{AtomicU64, Ordering};

/// How many requests of a file may be done whose lines aren't out. It is over the 64 replies for which there is room on their way
/// to the sink.
const MOST_AHEAD: u64 = 100;

/// How far a file has come.
#[derive(Drop)]
struct Pace {
    /// The index of its last request that came to its commit.
    reached: AtomicU64,
    /// How many lines of its replies are out.
    lines: AtomicU64,
}

/// A gate that holds each request but the first of a file up until a line of each file is out, and a later one until its file has
/// lines enough; or until the turns of its wait are over.
#[derive(Drop)]
pub struct LineGate {
    files: Vec<Pace>,
    waits: Waits,
}

impl LineGate {
    /// Nothing is done yet of so many files.
    pub fn new(alloc: Global, count: u64) -> Result<LineGate, AllocError> {
        let mut files = Vec::new(alloc);
        for _ in 0..count {
            files.push(Pace {
                reached: AtomicU64::new(0),
                lines: AtomicU64::new(0),
            })?;
        }
        Ok(LineGate {
            files,
            waits: Waits::new(),
        })
    }

    /// Notes that a line of this file is out, if it is one of them.
    pub fn note_line(&self, file: u64) {
        if let Some(pace) = self.files.get(file as usize) {
            pace.lines.fetch_add(1, Ordering::SeqCst);
        }
    }

    /// How many lines of this file are out.
    pub fn lines_of(&self, file: u64) -> u64 {
        match self.files.get(file as usize) {
            Some(pace) => pace.lines.load(Ordering::SeqCst),
            None => 0,
        }
    }

    /// Whether a line of each file is out.
    pub fn has_line_of_each(&self) -> bool {
        for pace in &self.files {
            if pace.lines.load(Ordering::SeqCst) == 0 {
                return false;
            }
        }
        true
    }

    /// Waits until each file has done as many requests as it may do with one line out, which are more than have room on their way.
    pub fn wait_for_requests(&self) {
        for pace in &self.files {
            self.waits.wait_for(&pace.reached, MOST_AHEAD);
        }
    }

    /// Whether no wait was in vain, for a line or for requests.
    pub fn was_met(&self) -> bool {
        self.waits.were_met()
    }
}

impl Gate for LineGate {
    fn pass(&self, file: u64, index: u64) {
        let Some(own) = self.files.get(file as usize) else {
            return;
        };
        own.reached.store(index, Ordering::SeqCst);
        if index > 0 {
            for pace in &self.files {
                self.waits.wait_for(&pace.lines, 1);
            }
        }
        self.waits
            .wait_for(&own.lines, index.saturating_sub(MOST_AHEAD));
    }
}
