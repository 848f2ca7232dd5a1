//! The records that wait, in the lanes of all rings.

ghost use Rattle.back_store.specs.Backlog.{AppendsIn, CanWait, HasRingCause, IsLawful, MayWait, Reproduces, StopsAfter, announced_to, appended_if, empty_log, reproduced_if};
ghost use Rattle.back_store.specs.Lane.{IsLaneFull, released_lane};
ghost use Rattle.back_store.specs.Lanes.{AreLed, lane_at, lanes_at_start, waiting_of};
ghost use Rattle.dude_base.specs.Image.{image_words};
ghost use Rattle.dude_base.specs.declared.limits.TheConstants.{MAX_NUMBER};
ghost use Rattle.redo_record.specs.Waiting.{IsContiguousEnd};
ghost use Rattle.std.specs.Prelude.{◌≡◌, ◌≤◌, IfOk, is_ok, map};

use crate::home_group::HomeGroup;
use crate::lane::Lane;
use crate::merge::{contiguous_end, last_end, next_end};
use dude_base::bundle::Bundle;
use dude_base::place::Place;
use log_ring::RingFault;
use pmem_trait::{Failed, Medium};
use std::alloc::{AllocError, Global};
use std::marker::Model;

/// The records of a log that wait for the home to have their writes, in the lanes of its rings. Its memory is taken when
/// it is made.
#[derive(Drop)]
pub struct Backlog {
    place: Place,
    lanes: Vec<Lane>,
    group: HomeGroup,
    durable: u64,
    reproduced: u64,
}

impl Model for Backlog {
    ghost use Rattle.back_store.specs.Backlog.{BacklogState};
    ghost use Rattle.back_store.specs.KeptBacklog.{IsKeptBacklog, backlog_state};

    ghost Value = { BacklogState };

    ghost view = { backlog_state };

    ghost invariant = { IsKeptBacklog };
}

// The lanes of all rings, with no records.
fn empty_lanes(alloc: Global, place: &Place) -> Result<Vec<Lane>, AllocError>
    ensures { IfOk result (λ lanes. lanes.items ≡ lanes_at_start place.now) }
{
    let rings = place.sizes().rings;
    let mut lanes = Vec::with_capacity(alloc, rings as usize)?;
    for ring in 0..rings {
        lanes.push_reserved(Lane::new(alloc, *place, ring)?);
    }
    Ok(lanes)
}

// Frees the cells of the records numbered up to this number, in each lane.
fn release_all(lanes: &mut Vec<Lane>, number: u64)
    ensures { lanes.new.items ≡ map (released_lane number) lanes.old.items }
{
    for lane in lanes.iter_mut() {
        lane.release(number);
    }
}

impl Backlog {
    /// No records, where all up to this number is durable and in the home.
    pub fn new(alloc: Global, place: Place, number: u64) -> Result<Backlog, AllocError>
        requires { number ≤ MAX_NUMBER }
        ensures { IfOk result (λ log. log ≡ empty_log place number) }
    {
        // The sizes are accepted.
        let _sizes = place.sizes();
        Ok(Backlog {
            place,
            lanes: empty_lanes(alloc, &place)?,
            group: HomeGroup::new(alloc, place)?,
            durable: number,
            reproduced: number,
        })
    }

    /// Where the parts of the image stand.
    pub fn place(&self) -> Place
        ensures sizes { result ≡ self.now.sizes }
        ensures lawful { IsLawful self.now }
    {
        self.place
    }

    /// The number up to which it was announced that all is durable.
    pub fn durable(&self) -> u64
        ensures { result ≡ self.now.durable }
    {
        self.durable
    }

    /// The number up to which the home has all writes.
    pub fn reproduced(&self) -> u64
        ensures { result ≡ self.now.reproduced }
    {
        self.reproduced
    }

    /// Appends a record to a ring, to wait behind those that wait there.
    ///
    /// After `Device` the records that wait are as before, and the medium may hold the record's head: append nothing more.
    pub fn append<M: Medium>(&mut self, m: &mut M, ring: u64, r: &Bundle) -> Result<(), RingFault>
        requires may { MayWait self.old ring r.now }
        requires room { image_words self.old.sizes ≤ (M.sight m.old).len }
        ensures len { (M.sight m.new).len ≡ (M.sight m.old).len }
        ensures calls { AppendsIn self.old ring r.now result (M.sight m.old) (M.sight m.new) }
        ensures cause { HasRingCause self.old ring r.now result (M.sight m.old) (M.sight m.new) }
        ensures untouched { IsLaneFull (lane_at self.old.lanes ring) r.now → m.new ≡ m.old }
        ensures log { self.new ≡ appended_if (is_ok result) ring r.now self.old }
        ensures can { CanWait self.old ring r.now }
    {
        let lane = &mut self.lanes[ring as usize];
        lane.append(m, r)
    }

    /// The number to which waiting records lead from the reproduced one without a gap.
    pub fn contiguous_end(&self) -> u64
        ensures end { IsContiguousEnd (waiting_of self.now.lanes) self.now.reproduced result }
        ensures least { self.now.durable ≤ result }
        ensures small { result ≤ MAX_NUMBER }
    {
        contiguous_end(&self.place, &self.lanes, self.durable)
    }

    /// Takes note that it was announced that all up to the contiguous end is durable.
    pub fn announce(&mut self, end: u64)
        requires end { IsContiguousEnd (waiting_of self.old.lanes) self.old.reproduced end }
        requires small { end ≤ MAX_NUMBER }
        ensures { self.new ≡ announced_to end self.old }
    {
        self.durable = end;
    }

    /// The end at which a reproduction of at most `most` durable numbers stops: behind one bundle at least, where there
    /// is one to do.
    pub fn next_stop(&self, most: u64) -> u64
        ensures stop { StopsAfter self.now most result }
        ensures led { AreLed self.now.lanes self.now.reproduced result }
        ensures upto { result ≤ self.now.durable }
    {
        let near = self.durable.min(self.reproduced.saturating_add(most));
        let stop = last_end(&self.place, &self.lanes, self.reproduced, near);
        if stop == self.reproduced && most > 0 && self.durable > stop {
            return next_end(&self.place, &self.lanes, stop, self.durable);
        }
        stop
    }

    /// Reproduces the records up to a durable number: puts their words into the home, then the mark, and frees their
    /// cells. After an `Err` they still wait.
    pub fn reproduce<M: Medium>(&mut self, m: &mut M, to: u64) -> Result<(), Failed>
        requires led { AreLed self.old.lanes self.old.reproduced to }
        requires to { to ≤ self.old.durable }
        requires room { image_words self.old.sizes ≤ (M.sight m.old).len }
        ensures len { (M.sight m.new).len ≡ (M.sight m.old).len }
        ensures reproduces { Reproduces self.old to (is_ok result) (M.sight m.old) (M.sight m.new) }
        ensures log { self.new ≡ reproduced_if (is_ok result) to self.old }
    {
        self.group.fill(&self.lanes, self.reproduced, to);
        self.group.settle(m, to)?;
        release_all(&mut self.lanes, to);
        self.reproduced = to;
        Ok(())
    }
}
