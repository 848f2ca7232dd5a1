//! The homes that images of a command may recover to.

use crate::found::{LOCATION, recovered, word_at};
use crate::outcome::{Outcome, crash_at};
use pmem_trait::Medium;
use std::alloc::{AllocError, Global};
use tatp_model::{Done, Request};

/// The location of subscriber 1 in a new image of eight subscribers.
const FIRST_LOCATION: u64 = 1_000_001;

/// Which home an image has whose number is another one than that on which the command began.
#[derive(Drop)]
pub enum Homes {
    /// One where subscriber 1 is where so many updates to 1, 2 and so on leave it.
    Counted,
    /// One where subscriber 1 is where the requests done up to this number leave it.
    Done,
    /// That of an image of the whole command. Here stands each behind its number.
    Seen(Vec<(u64, Vec<u64>)>),
}

impl Homes {
    /// Those of a whole command, from this moment on. Of several files the calls depend on the turns of threads, and only the
    /// requests done say which homes there are.
    pub fn of(alloc: Global, whole: &Outcome, first: u64) -> Result<Homes, AllocError> {
        if whole.runs_several {
            return Ok(Homes::Done);
        }
        let mut seen = Vec::new(alloc);
        for moment in first..=whole.medium.now() {
            let image = crash_at(alloc, &whole.medium, moment, false)?;
            if let Ok((number, home)) = recovered(alloc, &image)
                && !knows(&seen, number)
            {
                seen.push((number, home))?;
            }
        }
        Ok(Homes::Seen(seen))
    }

    /// Whether an image may have this home at this number, where these requests were done.
    pub fn has(&self, number: u64, home: &[u64], done: &[Done]) -> bool {
        let location = word_at(home, LOCATION);
        match self {
            Homes::Counted => location == if number == 0 { FIRST_LOCATION } else { number },
            Homes::Done => location == location_at(done, number),
            Homes::Seen(seen) => is_among(seen, number, home),
        }
    }
}

/// Whether one of these homes has this number.
fn knows(seen: &[(u64, Vec<u64>)], number: u64) -> bool {
    for (at, _) in seen {
        if *at == number {
            return true;
        }
    }
    false
}

/// Whether this home stands behind this number.
fn is_among(seen: &[(u64, Vec<u64>)], number: u64, home: &[u64]) -> bool {
    for (at, known) in seen {
        if *at == number {
            return known.as_slice() == home;
        }
    }
    false
}

/// The location of subscriber 1 that these requests done leave at this number.
fn location_at(done: &[Done], number: u64) -> u64 {
    let mut location = FIRST_LOCATION;
    let mut last = 0;
    for one in done {
        if one.wrote
            && last <= one.number
            && one.number <= number
            && let Request::UpdateLocation { sub_nbr: 1, vlr } = one.request
        {
            location = vlr;
            last = one.number;
        }
    }
    location
}
