//! One log ring: records are appended to it, and released.

ghost use Rattle.dude_base.specs.Image.{image_words};
ghost use Rattle.dude_base.specs.Records.{first_of};
ghost use Rattle.dude_base.specs.Sizes.{IsAccepted};
ghost use Rattle.log_ring.specs.Appends.{AppendsBehind, AppendsSafely, HasAppendCause, HasRoomFor, IsOverfull, MayAppend};
ghost use Rattle.log_ring.specs.Ring.{FitsAtStart, StillFits, empty_ring, released_to, with_record};
ghost use Rattle.redo_record.specs.Fits.{cells_used};
ghost use Rattle.std.specs.Prelude.{◌≡◌, ◌+◌, ◌<◌, ◌≤◌, All, IfOk, if◌then◌else◌, is_ok};

use crate::append::append_record;
use crate::logged::Logged;
use crate::ring_fault::RingFault;
use dude_base::bundle::Bundle;
use dude_base::place::Place;
use pmem_trait::{Failed, Medium};
use redo_record::{AppendCalls, cells_of, slot_after};
use std::alloc::{AllocError, Global};
use std::marker::Model;

/// One log ring of an image, and which records it holds.
#[derive(Drop)]
pub struct Ring {
    place: Place,
    ring: u64,
    records: Vec<Logged>,
    next: u64,
    released: u64,
    /// Room for the calls of an append, which is written anew by each.
    calls: AppendCalls,
}

impl Model for Ring {
    ghost use Rattle.log_ring.specs.Ring.{RingState};

    ghost Value = { RingState };

    ghost use Rattle.log_ring.specs.Laid.{IsKeptRing};

    ghost view = { λ a. record { sizes = a.place; ring = a.ring; logged = a.records.items; next = a.next; released = a.released } };

    ghost invariant = { IsKeptRing };
}

impl Ring {
    /// An empty ring that starts at its first cell. Room for its records is taken here.
    pub fn new(alloc: Global, place: Place, ring: u64) -> Result<Ring, AllocError>
        requires { ring < place.rings }
        ensures empty { IfOk result (λ made. made ≡ empty_ring place ring) }
        ensures fits { IfOk result (FitsAtStart place ring) }
    {
        Ok(Ring {
            records: Vec::with_capacity(alloc, place.sizes().cells as usize)?,
            place,
            ring,
            next: 0,
            released: 0,
            calls: AppendCalls::room(),
        })
    }

    /// Where the parts of the image stand.
    pub fn place(&self) -> Place
        ensures sizes { result ≡ self.now.sizes }
        ensures accepted { IsAccepted self.now.sizes }
    {
        // The sizes are accepted.
        let _sizes = self.place.sizes();
        self.place
    }

    /// The slot in which the next record's head will stand.
    pub fn next(&self) -> u64
        ensures next { result ≡ self.now.next }
        ensures inside { result < self.now.sizes.cells }
    {
        self.next
    }

    // How many cells the records take: from the oldest one's head to the next slot.
    fn used(&self) -> u64
        ensures used { result ≡ cells_used self.now.logged }
        ensures few { result ≤ self.now.sizes.cells }
    {
        match self.records.first() {
            None => 0,
            Some(oldest) => distance(&self.place, oldest.slot, self.next),
        }
    }

    // Takes up a bundle whose cells begin in the next slot.
    fn note(&mut self, b: &Bundle)
        requires room { HasRoomFor self.old b.now }
        requires newest { All (λ l. l.last < first_of b.now) self.old.logged }
        ensures { self.new ≡ with_record b.now self.old }
    {
        // A bundle's numbers are in their limits, and its writes are few and distinct.
        let _len = b.len();
        let slot = self.next;
        let cells = cells_of(b);
        self.records.push_reserved(Logged {
            last: b.last(),
            span: b.last() - b.first(),
            slot,
            cells,
        });
        self.next = slot_after(&self.place, slot, cells);
    }

    /// Appends a record behind the others: its body is made durable, and then its head's tag.
    ///
    /// After `Device` the ring is as before, and the medium may hold the record's head: append nothing more.
    pub fn append<M: Medium>(&mut self, m: &mut M, b: &Bundle) -> Result<(), RingFault>
        requires may { MayAppend self.old b.now }
        requires room { image_words self.old.sizes ≤ (M.sight m.old).len }
        ensures len { (M.sight m.new).len ≡ (M.sight m.old).len }
        ensures calls { AppendsBehind self.old b.now result (M.sight m.old) (M.sight m.new) }
        ensures cause { HasAppendCause self.old b.now result (M.sight m.old) (M.sight m.new) }
        ensures untouched { IsOverfull self.old b.now → m.new ≡ m.old }
        ensures ring { self.new ≡ (if is_ok result then with_record b.now self.old else self.old) }
        ensures safe { AppendsSafely self.old b.now result (M.sight m.old) (M.sight m.new) }
    {
        // The sizes are accepted, and a bundle's writes are few and distinct.
        let _kept = &self.place;
        let _count = b.len();
        let used = self.used();
        let need = cells_of(b);
        if used + need > self.place.sizes().cells {
            return Err(RingFault::Full { used, need });
        }
        match append_record(m, &mut self.calls, &self.place, self.ring, self.next, b) {
            Ok(()) => {
                self.note(b);
                Ok(())
            }
            Err(Failed) => Err(RingFault::Device),
        }
    }

    /// Frees the cells of the records numbered up to `reproduced`.
    pub fn release(&mut self, reproduced: u64)
        ensures ring { self.new ≡ released_to reproduced self.old }
        // The ring still fits where the mark is settled at that number or more.
        ensures fits { StillFits reproduced self.old self.new }
    {
        self.records.retain(|logged| logged.last > reproduced);
        self.released = self.released.max(reproduced);
    }
}

// How many cells lie from one slot of a ring up to another; the whole ring where they are the same.
fn distance(place: &Place, from: u64, to: u64) -> u64
    requires from { from < place.now.cells }
    requires to { to < place.now.cells }
    ensures up { from < to → from + result ≡ to }
    ensures around { to ≤ from → from + result ≡ place.now.cells + to }
{
    if to > from {
        to - from
    } else {
        place.sizes().cells - (from - to)
    }
}
