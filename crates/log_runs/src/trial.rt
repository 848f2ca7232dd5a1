//! A back over a medium in memory, with what was persisted on it: it persists only what it may.

ghost use Rattle.back_store.specs.Back.{waiting_now};
ghost use Rattle.back_store.specs.BackView.{state_of};
ghost use Rattle.dude_base.specs.Sizes.{sizes_for};
ghost use Rattle.log_runs.specs.Persisted.{MayComeBehind, is_listed, numbers_of};
ghost use Rattle.redo_record.specs.Waiting.{Waiting};
ghost use Rattle.std.specs.List.{Contains};
ghost use Rattle.std.specs.Prelude.{◌≡◌, ◌<◌, All, IsTrue};

use crate::persisted::Persisted;
use crate::records::{is_home, small_sizes};
use back_store::{Back, BackFault};
use dude_base::bundle::Bundle;
use dude_base::limits::MAX_NUMBER;
use dude_base::place::Place;
use pmem_fake::MemPmem;
use pmem_trait::Medium;
use std::alloc::{AllocError, Global};

/// A call on the back of the store.
#[derive(Drop)]
pub enum Step {
    Persist(u64, Bundle),
    Announce,
    Reproduce(u64),
}

/// A back over the small image, and the numbers of the bundles persisted.
#[derive(Drop)]
pub struct Trial {
    pub back: Back<MemPmem>,
    persisted: Vec<Persisted>,
    ghost sizes: { (state_of back).log.sizes ≡ sizes_for 8 96 2 16 },
    ghost listed: { (w : Waiting) → Contains (waiting_now (state_of back)) w → IsTrue (is_listed persisted.items (numbers_of w)) },
}

// Whether a bundle of these numbers may be persisted in this ring behind these.
fn may_follow(persisted: &[Persisted], ring: u64, first: u64, last: u64) -> bool
    ensures { IsTrue result → All (MayComeBehind ring first last) persisted.now }
{
    for k in 0..persisted.len() {
        let before = persisted[k];
        if before.last >= first && (before.first <= last || before.ring == ring) {
            return false;
        }
    }
    true
}

impl Trial {
    /// A back where nothing waits; none where the medium has no room for the image.
    pub fn new(alloc: Global, medium: MemPmem) -> Option<Trial> {
        let sizes = small_sizes()?;
        if medium.len() < Place::of(&sizes).words() {
            return None;
        }
        match Back::new(alloc, medium, &sizes, 0) {
            Ok(back) => Some(Trial {
                back,
                persisted: Vec::new(alloc),
            }),
            Err(_) => None,
        }
    }

    /// The medium below the back.
    pub fn into_medium(self) -> MemPmem {
        self.back.into_medium()
    }

    /// Makes a call; `None` where the back doesn't take it. One that persists answers the last number.
    pub fn take(&mut self, step: &Step) -> Result<Option<Result<u64, BackFault>>, AllocError> {
        match step {
            Step::Persist(ring, bundle) => match self.persist(*ring, bundle)? {
                Some(Ok(())) => Ok(Some(Ok(bundle.last()))),
                Some(Err(fault)) => Ok(Some(Err(fault))),
                None => Ok(None),
            },
            Step::Announce => Ok(Some(self.announce())),
            Step::Reproduce(most) => Ok(Some(self.reproduce(*most))),
        }
    }

    fn persist(
        &mut self,
        ring: u64,
        bundle: &Bundle,
    ) -> Result<Option<Result<(), BackFault>>, AllocError> {
        let (first, last) = (bundle.first(), bundle.last());
        let in_range = ring < 2 && 1 <= first && last <= MAX_NUMBER;
        if !in_range
            || first <= self.back.durable()
            || !is_home(bundle)
            || !may_follow(&self.persisted, ring, first, last)
        {
            return Ok(None);
        }
        self.persisted.push(Persisted { ring, first, last })?;
        Ok(Some(self.back.persist(ring, bundle)))
    }

    /// The last number of the last bundle that was persisted, and 0 where there is none.
    pub fn last_number(&self) -> u64 {
        self.persisted.last().map_or(0, |bundle| bundle.last)
    }

    fn announce(&mut self) -> Result<u64, BackFault> {
        self.back.announce()
    }

    fn reproduce(&mut self, most: u64) -> Result<u64, BackFault> {
        self.back.reproduce(most)
    }

    /// A page of the home, of which there are fifteen.
    pub fn page(&mut self, page: u64) -> Result<[u64; 64], BackFault>
        requires { page < 15 }
    {
        let mut words = [0; 64];
        self.back.read_page(page, &mut words)?;
        Ok(words)
    }
}
