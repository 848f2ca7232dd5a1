//! What images of a command have to recover to.

use crate::acts::command_of;
use crate::found::{Found, is_replayed, recovered};
use crate::homes::Homes;
use crate::outcome::{Outcome, crash_at, last_of};
use crate::scene::{Scene, Settings};
use pmem_fake::MemPmem;
use pmem_trait::{Call, Made, Medium};
use std::alloc::{AllocError, Global};
use std::thread::Threads;
use tatp_model::Done;

/// How many numbers a crash takes back at most: those of a bundle that is open, and the one that closed it.
const MOST_LOST: u64 = 257;

/// What images of a command have to recover to.
#[derive(Drop)]
pub struct Wanted {
    /// What the image recovers to on which the command began.
    began: Found,
    /// The greatest number.
    most: u64,
    /// The homes of other numbers than that on which the command began.
    homes: Homes,
}

impl Wanted {
    /// Numbers up to this one. Subscriber 1 is where so many updates to 1, 2 and so on leave it.
    pub fn counted(alloc: Global, image: &[u64], most: u64) -> Wanted {
        Wanted {
            began: recovered(alloc, image),
            most,
            homes: Homes::Counted,
        }
    }

    /// Numbers up to this one, with the homes of a whole command from this moment on.
    pub fn seen(
        alloc: Global,
        image: &[u64],
        most: u64,
        whole: &Outcome,
        first: u64,
    ) -> Result<Wanted, AllocError> {
        Ok(Wanted {
            began: recovered(alloc, image),
            most,
            homes: Homes::of(alloc, whole, first)?,
        })
    }

    /// Whether an image is right where this was told last, and these requests were done, where that is known.
    fn is_right(
        &self,
        alloc: Global,
        image: &[u64],
        told: Option<u64>,
        done: &[Done],
    ) -> Result<bool, AllocError> {
        let found = recovered(alloc, image);
        let is_wanted = match &found {
            Ok((number, home)) => {
                self.has(told, *number, home, done) && is_near(*number, told, last_of(done))
            }
            Err(_) => told.is_none() && found == self.began,
        };
        Ok(is_wanted && is_replayed(alloc, image, &found)?)
    }

    /// Whether an image may recover to this number and home where this was told last, and these requests were done.
    fn has(&self, told: Option<u64>, number: u64, home: &[u64], done: &[Done]) -> bool {
        let is_other = self.homes.has(number, home, done);
        let (first, is_home) = match &self.began {
            Ok((first, old)) if *first == number => (Some(number), home == old.as_slice()),
            Ok((first, _)) => (Some(*first), is_other),
            Err(_) => (None, is_other),
        };
        match told.or(first) {
            Some(least) => is_home && least <= number && number <= self.most,
            None => false,
        }
    }

    /// Whether both images that a command leaves in a crash are right, and `recover` ends well on them. Where it began on
    /// no image and nothing was told, each image is right.
    pub fn both_survive<R: Threads + Sync>(
        &self,
        threads: &R,
        alloc: Global,
        outcome: &Outcome,
    ) -> Result<bool, AllocError> {
        let medium = &outcome.medium;
        let told = medium.told();
        if told.is_none() && self.began.is_err() {
            return Ok(true);
        }
        for later in [false, true] {
            let image = crash_at(alloc, medium, medium.now(), later)?;
            if !self.is_right(alloc, &image, told, &outcome.done)?
                || !is_recovered(threads, alloc, &image)?
            {
                return Ok(false);
            }
        }
        Ok(true)
    }

    /// The first moment of a command at which an image isn't right, and whether that is the later one.
    pub fn first_wrong(
        &self,
        alloc: Global,
        medium: &MemPmem,
    ) -> Result<Option<(u64, bool)>, AllocError> {
        let mut told = None;
        for moment in 0..=medium.now() {
            for later in [false, true] {
                let image = crash_at(alloc, medium, moment, later)?;
                if !self.is_right(alloc, &image, told, &[])? {
                    return Ok(Some((moment, later)));
                }
            }
            told = told_by(medium, moment, told);
        }
        Ok(None)
    }
}

/// Whether an image may recover to this number where this was told last, and this was the last number done.
fn is_near(number: u64, told: Option<u64>, done: Option<u64>) -> bool {
    match done {
        None => true,
        Some(last) => {
            told.unwrap_or(0) <= last && number <= last && last <= number.saturating_add(MOST_LOST)
        }
    }
}

/// What was told by the end of the call of this index, where `told` was before it.
fn told_by(medium: &MemPmem, index: u64, told: Option<u64>) -> Option<u64> {
    match medium.made().get(index as usize) {
        Some(
            Made {
                call: Call::Tell(number),
                ..
            },
        ) => Some(*number),
        _ => told,
    }
}

/// Whether the command `recover` ends well on an image.
fn is_recovered<R: Threads + Sync>(
    threads: &R,
    alloc: Global,
    image: &[u64],
) -> Result<bool, AllocError> {
    let scene = Scene {
        image,
        files: &[],
        settings: Settings::new(),
    };
    let left = command_of(threads, alloc, &scene, &["recover"])?;
    Ok(left.answer.as_str() == "status 0\n")
}
