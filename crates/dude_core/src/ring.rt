//! A ring of the log.

ghost use Rattle.dude_core.specs.Effects.{ring_released};
ghost use Rattle.dude_core.specs.Named.{Tells};
ghost use Rattle.dude_core.specs.StoreData.{no_ring};
ghost use Rattle.redo_record.specs.Fits.{cells_used};
ghost use Rattle.std.specs.Prelude.{◌≡◌, ◌+◌, ◌<◌, ◌≤◌, ◌++◌, ◌∷◌, [], All, OnOk, OnErr};

use crate::logged_bundle::LoggedBundle;
use std::alloc::{AllocError, Global};
use std::marker::Model;

/// A ring: its bundles, and the slot behind the last one.
#[derive(Drop)]
pub(crate) struct Ring {
    logged: Vec<LoggedBundle>,
    next: u64,
}

impl Model for Ring {
    ghost use Rattle.dude_core.specs.StoreData.{RingData};

    ghost Value = { RingData };

    ghost view = { λ r. record { logged = r.logged.items; next = r.next } };
}

impl Ring {
    /// A ring without bundles.
    pub(crate) fn new(alloc: Global) -> Self
        ensures { result ≡ no_ring }
    {
        Ring {
            logged: Vec::new(alloc),
            next: 0,
        }
    }

    /// The slot behind the last bundle.
    pub(crate) fn next(&self) -> u64
        ensures { result ≡ self.now.next }
    {
        self.next
    }

    /// Puts a bundle behind the others; the slot behind it is the next one.
    pub(crate) fn add(&mut self, bundle: LoggedBundle, next: u64) -> Result<(), AllocError>
        ensures ok { OnOk result (self.new
            ≡ record { logged = self.old.logged ++ bundle ∷ []; next = next }) }
        ensures err { OnErr result (self.new ≡ self.old) }
    {
        self.logged.push(bundle)?;
        self.next = next;
        Ok(())
    }

    /// Leaves no bundles up to this number.
    pub(crate) fn release(&mut self, number: u64)
        ensures { self.new ≡ ring_released number self.old }
    {
        self.logged.retain(|bundle| bundle.last > number);
    }

    /// Whether so many cells more are no more than these.
    pub(crate) fn has_room(&self, need: u64, cells: u64) -> bool
        ensures { Tells result (cells_used self.now.logged + need ≤ cells) }
    {
        let mut left = cells;
        for bundle in &self.logged {
            if left < bundle.cells {
                return false;
            }
            left -= bundle.cells;
        }
        need <= left
    }

    /// Whether each bundle's last number is below this one.
    pub(crate) fn is_below(&self, number: u64) -> bool
        ensures { Tells result (All (λ k. k.last < number) self.now.logged) }
    {
        for bundle in &self.logged {
            if bundle.last >= number {
                return false;
            }
        }
        true
    }
}
