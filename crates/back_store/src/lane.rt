//! One ring of the log, and the records in it that wait.

ghost use Rattle.back_store.specs.Lane.{CanTake, CountsWritesAt, HasAt, HasLaneCause, IsFront, IsLaneFull, IsWriteAt, MayTake, NoneBegins, empty_lane, released_lane, with_redo};
ghost use Rattle.dude_base.specs.Image.{image_words};
ghost use Rattle.dude_base.specs.Records.{IsBundle, RedoBundle, first_of};
ghost use Rattle.log_ring.specs.Appends.{AppendsBehind};
ghost use Rattle.std.specs.Prelude.{◌≡◌, ◌+◌, ◌^◌, ◌<◌, ◌≤◌, AllPairs, IfOk, MatchBool, if◌then◌else◌, is_ok, length, slice_index_or};

use crate::entry::Entry;
use crate::lane_writes::{put_writes, write_place};
use dude_base::bundle::Bundle;
use dude_base::place::Place;
use dude_base::write::Write;
use log_ring::{Ring, RingFault};
use pmem_trait::Medium;
use redo_record::CELL_WRITES;
use std::alloc::{AllocError, Global};
use std::marker::Model;

/// One ring of the log and the records in it that wait, the oldest first. A record's writes stand as its cells do in the
/// ring, three for each cell. The memory is taken when a lane is made.
#[derive(Drop)]
pub struct Lane {
    ring: Ring,
    entries: Vec<Entry>,
    writes: Vec<Write>,
}

impl Model for Lane {
    ghost use Rattle.back_store.specs.KeptLane.{IsKeptLane, waiting_in_lane};
    ghost use Rattle.back_store.specs.Lane.{LaneState};

    ghost Value = { LaneState };

    ghost view = { λ a. record { ring = a.ring; waiting = waiting_in_lane a } };

    ghost invariant = { IsKeptLane };
}

impl Lane {
    /// An empty ring, with room for as many records as it has cells.
    pub fn new(alloc: Global, place: Place, ring: u64) -> Result<Lane, AllocError>
        requires { ring < place.rings }
        ensures { IfOk result (λ lane. lane ≡ empty_lane place ring) }
    {
        let cells = place.sizes().cells;
        Ok(Lane {
            ring: Ring::new(alloc, place, ring)?,
            entries: Vec::with_capacity(alloc, cells as usize)?,
            writes: vec![in alloc; Write { at: 0, value: 0 }; (CELL_WRITES * cells) as usize]?,
        })
    }

    /// How many records wait.
    pub fn len(&self) -> usize
        ensures len { result ≡ length self.now.waiting }
        ensures rising { AllPairs (λ r t. r.last < first_of t) self.now.waiting }
    {
        self.entries.len()
    }

    /// The first number of the record at index `k`, the oldest being at 0.
    pub fn first(&self, k: usize) -> u64
        requires { k < length self.now.waiting }
        ensures { (d : RedoBundle) → result ≡ first_of (slice_index_or self.now.waiting k d) }
    {
        let entries = &self.entries;
        entries[k].last.saturating_sub(u64::from(entries[k].span))
    }

    /// The last number of the record at index `k`.
    pub fn last(&self, k: usize) -> u64
        requires { k < length self.now.waiting }
        ensures { (d : RedoBundle) → result ≡ (slice_index_or self.now.waiting k d).last }
    {
        let entries = &self.entries;
        entries[k].last
    }

    /// How many different words the record at index `k` writes.
    pub fn writes(&self, k: usize) -> u64
        requires { k < length self.now.waiting }
        ensures count { CountsWritesAt self.now k result }
        ensures bundle { (d : RedoBundle) → IsBundle (slice_index_or self.now.waiting k d) }
    {
        let entries = &self.entries;
        u64::from(entries[k].count)
    }

    /// The write at index `i` of the record at index `k`.
    pub fn write_at(&self, k: usize, i: u64) -> Write
        requires within { k < length self.now.waiting }
        requires few { (d : RedoBundle) → i < length (slice_index_or self.now.waiting k d).writes }
        ensures { IsWriteAt self.now k i result }
    {
        let cells = self.ring.place().sizes().cells;
        let entries = &self.entries;
        let writes = &self.writes;
        writes[write_place(cells, u64::from(entries[k].slot), i)]
    }

    /// How many of the records have last numbers up to this one.
    pub fn count_upto(&self, number: u64) -> usize
        ensures { IsFront self.now.waiting result number }
    {
        let entries = &self.entries;
        entries.partition_point(|entry| entry.last <= number)
    }

    /// Whether the next record, behind the `taken` ones up to `number`, begins with the number behind it.
    pub fn is_next(&self, taken: usize, number: u64) -> bool
        requires front { IsFront self.now.waiting taken number }
        requires small { number + 1 < 2 ^ 64 }
        ensures { MatchBool result
            (HasAt self.now.waiting taken (number + 1)) (NoneBegins self.now.waiting (number + 1)) }
    {
        taken < self.len() && self.first(taken) == number + 1
    }

    /// Appends a record to the ring, to wait behind the others.
    ///
    /// After `Device` the lane is as before, and the medium may hold the record's head: append nothing more.
    pub fn append<M: Medium>(&mut self, m: &mut M, r: &Bundle) -> Result<(), RingFault>
        requires may { MayTake self.old r.now }
        requires room { image_words self.old.ring.sizes ≤ (M.sight m.old).len }
        ensures len { (M.sight m.new).len ≡ (M.sight m.old).len }
        ensures calls { AppendsBehind self.old.ring r.now result (M.sight m.old) (M.sight m.new) }
        ensures cause { HasLaneCause self.old r.now result (M.sight m.old) (M.sight m.new) }
        ensures untouched { IsLaneFull self.old r.now → m.new ≡ m.old }
        ensures lane { self.new ≡ (if is_ok result then with_redo r.now self.old else self.old) }
        ensures can { CanTake self.old r.now }
    {
        let cells = self.ring.place().sizes().cells;
        let slot = self.ring.next();
        let outcome = self.ring.append(m, r);
        if outcome.is_ok() {
            let count = r.len();
            put_writes(cells, slot, r, &mut self.writes);
            self.entries.push_reserved(Entry {
                last: r.last(),
                span: (r.last() - r.first()) as u8,
                slot: slot as u16,
                count: count as u8,
            });
        }
        outcome
    }

    /// Frees the cells of the records numbered up to `reproduced`, which wait no more.
    pub fn release(&mut self, reproduced: u64)
        ensures { self.new ≡ released_lane reproduced self.old }
    {
        self.ring.release(reproduced);
        self.entries.retain(|entry| entry.last > reproduced);
    }
}
