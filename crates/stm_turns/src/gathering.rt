//! Records in hand whose numbers follow one another, and the bundle that joins them.

ghost use Rattle.dude_base.specs.Joins.{places_of};
ghost use Rattle.redo_record.specs.Record.{cells_for};
ghost use Rattle.std.specs.Prelude.{◌≡◌, ◌<◌, ◌≤◌, true, false, length, slice_index, MatchBool};
ghost use Rattle.stm_turns.specs.Gathered.{BeginsWith, LeavesNext, TakesNext};

use crate::places::next_place;
use dude_base::bundle::Bundle;
use dude_base::limits::{MAX_RINGS, MAX_SPAN};
use dude_base::redo::Redo;
use redo_record::cells_for;

/// How many numbers a bundle covers at most.
const MOST: usize = MAX_SPAN as usize + 1;

/// Records in hand whose numbers follow one another, and the bundle that joins them.
#[derive(Drop)]
pub struct Gathering {
    /// The ring that they go to: that of the thread of the first one.
    pub ring: u64,
    pub bundle: Bundle,
    /// The threads whose boxes they are from, in the order of their numbers.
    pub threads: [u8; MOST],
    pub count: u64,
    /// Of each thread, the place behind those that were taken.
    pub ahead: [u64; MAX_RINGS as usize],
}

impl Gathering {
    /// One record, from the front of a thread's boxes.
    pub fn begin(
        thread: u64,
        redo: &Redo,
        next: &[u64; MAX_RINGS as usize],
        boxes: u64,
    ) -> Gathering
        requires thread { thread < length next.now }
        requires place { slice_index next.now thread < boxes }
        ensures { BeginsWith thread redo.now next.now boxes result }
    {
        let mut threads = [0; MOST];
        threads[0] = thread as u8;
        let mut ahead = *next;
        ahead[thread as usize] = next_place(next[thread as usize], boxes);
        Gathering {
            ring: thread,
            bundle: Bundle::one(redo),
            threads,
            count: 1,
            ahead,
        }
    }

    /// Takes the record in front of a thread's boxes, where the bundle takes it and a ring of so
    /// many cells is long enough for the bundle then. Answers whether it did.
    pub fn take(&mut self, thread: u64, redo: &Redo, cells: u64, boxes: u64) -> bool
        requires thread { thread < length self.old.ahead }
        requires place { slice_index self.old.ahead thread < boxes }
        ensures taken { result ≡ true → TakesNext thread redo.now cells boxes self.old self.new }
        ensures stays { result ≡ false → self.new ≡ self.old }
        ensures refused { result ≡ false → LeavesNext redo.now cells self.old }
    {
        if self.count > MAX_SPAN || !self.has_cells(redo, cells) {
            return false;
        }
        if self.bundle.add(redo).is_err() {
            return false;
        }
        self.threads[self.count as usize] = thread as u8;
        self.count += 1;
        self.ahead[thread as usize] = next_place(self.ahead[thread as usize], boxes);
        true
    }

    // Whether so many cells are enough for the bundle with this record. Their words are compared only where the two lists might
    // be too long.
    fn has_cells(&self, redo: &Redo, cells: u64) -> bool
        ensures { MatchBool result (cells_for (places_of self.now.bundle redo.now) ≤ cells)
            (cells < cells_for (places_of self.now.bundle redo.now)) }
    {
        if cells_for(self.bundle.len() + redo.len()) <= cells {
            return true;
        }
        cells_for(self.bundle.places_with(redo)) <= cells
    }
}
