//! Whether what an image recovers to is what was committed up to its number.

use crate::images::crashed;
use crate::moves::{Access, Act, Move};
use crate::outcome::{Answer, Ended, Outcome};
use pmem_fake::MemPmem;
use pmem_trait::Call;
use std::alloc::{AllocError, Global};

/// What was committed with a number.
#[derive(Drop)]
struct Commit {
    number: u64,
    accesses: Vec<Access>,
}

/// What was committed, in rising order of number.
#[derive(Drop)]
pub struct Commits {
    alloc: Global,
    all: Vec<Commit>,
}

impl Commits {
    /// Nothing yet.
    pub fn new(alloc: Global) -> Commits {
        Commits {
            alloc,
            all: Vec::new(alloc),
        }
    }

    /// Adds what a move committed.
    pub fn add(&mut self, made: &Move, outcome: &Outcome) -> Result<(), AllocError> {
        match (made, outcome) {
            (Move::One { who: _, act }, Outcome::One(answer)) => self.add_act(act, answer),
            (
                Move::Around {
                    who: _,
                    before,
                    other: _,
                    act,
                    after,
                },
                Outcome::Around(answer, ended),
            ) => {
                if let Some(answer) = answer {
                    self.add_act(act, answer)?;
                }
                self.add_ended(before, after, ended)
            }
            _ => Ok(()),
        }
    }

    fn add_act(&mut self, act: &Act, answer: &Answer) -> Result<(), AllocError> {
        match (act, answer) {
            (Act::Transact(accesses), Answer::Ended(ended)) => self.add_ended(accesses, &[], ended),
            _ => Ok(()),
        }
    }

    fn add_ended(
        &mut self,
        before: &[Access],
        after: &[Access],
        ended: &Ended,
    ) -> Result<(), AllocError> {
        if let Ended::Done {
            number,
            wrote: true,
        } = ended
        {
            let mut accesses = before.to_vec(self.alloc)?;
            accesses.extend_from_slice(after)?;
            self.all.push(Commit {
                number: *number,
                accesses,
            })?;
        }
        Ok(())
    }

    /// Whether a home is the opening one after all that was committed up to a number.
    fn leads_to(&self, opening: &[u64], number: u64, home: &[u64]) -> bool {
        match opening.to_vec(self.alloc) {
            Ok(mut wanted) => {
                for commit in &self.all {
                    if commit.number <= number {
                        apply(&commit.accesses, &mut wanted);
                    }
                }
                wanted.as_slice() == home
            }
            Err(_) => false,
        }
    }

    /// The number to which the image of a moment recovers; nothing where it doesn't, or to another home than the opening one after
    /// all that was committed up to it, or to a number under the last one told.
    pub fn judge(
        &self,
        opening: &[u64],
        medium: &MemPmem,
        moment: u64,
        later: bool,
        late: bool,
    ) -> Option<u64> {
        let (number, home) = crashed(self.alloc, medium, moment, later)?;
        if told_by(medium, moment, late) <= number && self.leads_to(opening, number, &home) {
            Some(number)
        } else {
            None
        }
    }
}

/// Overwrites home words.
fn apply(accesses: &[Access], home: &mut [u64]) {
    for access in accesses {
        if let Access::Write { at, value } = access {
            let at = *at as usize;
            if at < home.len() {
                home[at] = *value;
            }
        }
    }
}

/// The last number told by a moment, also by a call that failed behind its effect.
pub fn told_by(medium: &MemPmem, moment: u64, late: bool) -> u64 {
    let mut told = 0;
    let made = medium.made();
    for k in 0..made.len().min(moment as usize) {
        if let Call::Tell(number) = made[k].call
            && (late || !made[k].failed)
        {
            told = number;
        }
    }
    told
}
