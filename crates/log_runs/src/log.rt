//! A ring of the small image, with the last number that was appended to it.

ghost use Rattle.dude_base.specs.Sizes.{sizes_for};
ghost use Rattle.std.specs.Prelude.{◌≡◌, ◌≤◌, All};

use crate::records::{is_home, small_sizes};
use dude_base::bundle::Bundle;
use dude_base::limits::MAX_NUMBER;
use dude_base::place::Place;
use log_ring::{Ring, RingFault};
use pmem_fake::MemPmem;
use pmem_trait::Medium;
use std::alloc::{AllocError, Global};

/// A ring of the small image. It takes only bundles that it may.
#[derive(Drop)]
pub struct Log {
    ring: Ring,
    last: u64,
    ghost sizes: { ring.sizes ≡ sizes_for 8 96 2 16 },
    ghost newest: { All (λ l. l.last ≤ last) ring.logged },
}

impl Log {
    /// An empty ring; none where there is no ring of this number.
    pub fn new(alloc: Global, ring: u64) -> Result<Option<Log>, AllocError> {
        match small_sizes() {
            Some(sizes) if ring < 2 => Ok(Some(Log {
                ring: Ring::new(alloc, Place::of(&sizes), ring)?,
                last: 0,
            })),
            _ => Ok(None),
        }
    }

    /// Appends a bundle; `None` where the ring doesn't take it.
    pub fn append(
        &mut self,
        medium: &mut MemPmem,
        bundle: &Bundle,
    ) -> Option<Result<(), RingFault>> {
        let place = Place::of(&small_sizes()?);
        let is_next = self.last < bundle.first() && bundle.last() <= MAX_NUMBER;
        if !is_next || !is_home(bundle) || medium.len() < place.words() {
            return None;
        }
        let appended = self.ring.append(medium, bundle);
        if appended.is_ok() {
            self.last = bundle.last();
        }
        Some(appended)
    }

    /// Releases the bundles up to a number.
    pub fn release(&mut self, number: u64) {
        self.ring.release(number);
    }
}
