//! How often something came about.

use crate::job::Job;

/// How often something came about.
#[derive(Clone, Copy)]
pub struct Counts {
    /// Requests that are done.
    pub done: u64,
    /// Requests that wrote.
    pub wrote: u64,
    /// Numbers that were drawn and are void.
    pub void: u64,
    /// Tries that another transaction refused.
    pub refused: u64,
    /// Transactions that came to their commit with another snapshot than they began with.
    pub extended: u64,
    /// Looks that found the next box full.
    pub full: u64,
}

impl Counts {
    /// Nothing came about.
    pub fn new() -> Counts {
        Counts {
            done: 0,
            wrote: 0,
            void: 0,
            refused: 0,
            extended: 0,
            full: 0,
        }
    }

    /// These and others.
    fn with(self, other: &Counts) -> Counts {
        Counts {
            done: self.done.wrapping_add(other.done),
            wrote: self.wrote.wrapping_add(other.wrote),
            void: self.void.wrapping_add(other.void),
            refused: self.refused.wrapping_add(other.refused),
            extended: self.extended.wrapping_add(other.extended),
            full: self.full.wrapping_add(other.full),
        }
    }

    /// Those of all jobs together.
    pub fn of_all(jobs: &[Job]) -> Counts {
        let mut all = Counts::new();
        for job in jobs {
            all = all.with(&job.counts);
        }
        all
    }

    /// How many numbers were drawn.
    pub fn drawn(&self) -> u64 {
        self.wrote.wrapping_add(self.void)
    }
}
