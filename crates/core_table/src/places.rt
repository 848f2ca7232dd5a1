//! Where a word of the machine stands on the table.

ghost use Rattle.core_events.specs.Setups.{cell_of, box_of};
ghost use Rattle.core_events.specs.Views.{the_lock, the_entry, the_touch, the_cell, the_box};
ghost use Rattle.core_table.specs.Places.{index};
ghost use Rattle.std.specs.Prelude.{◌≡◌, ◌*◌, ◌<◌};

use crate::event_table::EventTable;
use crate::slot_rule::SlotRule;
use dude_base::limits::PAGE;

/// The place of the count of threads that drew a number.
pub const THREADS: usize = 0;

/// The place of the clock, which is the last number drawn.
pub const CLOCK: usize = 1;

/// The place of the turn.
pub const TURN: usize = 2;

/// The place of the durable number.
pub const DURABLE: usize = 3;

/// The place of the reproduced number.
pub const REPRODUCED: usize = 4;

/// What the frame of a page entry is multiplied by; a pin counts 1.
pub const ENTRY: u64 = 65_536;

/// How many words stand alone, in front of all others.
const ALONE: u64 = 5;

impl<S, X, K, P: SlotRule<S, X, K>> EventTable<S, X, K, P> {
    /// The place of a lock.
    pub fn lock_place(&self, lock: u64) -> usize
        requires { lock < self.now.setup.locks }
        ensures { result ≡ index self.now.setup (the_lock lock) }
    {
        let _locks = self.locks;
        (ALONE + lock) as usize
    }

    /// The place of the entry of a page.
    pub fn entry_place(&self, page: u64) -> usize
        requires { page < self.now.setup.pages }
        ensures { result ≡ index self.now.setup (the_entry page) }
    {
        let _pages = self.pages;
        (ALONE + self.locks + page) as usize
    }

    /// The place of the touch of a page.
    pub fn touch_place(&self, page: u64) -> usize
        requires { page < self.now.setup.pages }
        ensures { result ≡ index self.now.setup (the_touch page) }
    {
        (ALONE + self.locks + self.pages + page) as usize
    }

    /// The place of a home word where its page is in this frame.
    pub fn cell_place(&self, frame: u64, at: u64) -> usize
        requires { frame < self.now.setup.frames }
        ensures { result ≡ index self.now.setup (the_cell (cell_of frame at)) }
    {
        let _frames = self.frames;
        (ALONE + self.locks + self.pages + self.pages + (frame * PAGE + at % PAGE)) as usize
    }

    /// The number of a thread's box among all boxes.
    pub fn box_number(&self, thread: u64, place: u64) -> usize
        requires thread { thread < self.now.setup.threads }
        requires place { place < self.now.setup.boxes }
        ensures { result ≡ box_of self.now.setup thread place }
    {
        let _threads = self.threads;
        (thread * self.boxes + place) as usize
    }

    /// The place of a thread's box.
    pub fn box_place(&self, thread: u64, place: u64) -> usize
        requires thread { thread < self.now.setup.threads }
        requires place { place < self.now.setup.boxes }
        ensures { result ≡ index self.now.setup (the_box (box_of self.now.setup thread place)) }
    {
        let before = self.locks + self.pages + self.pages + self.frames * PAGE;
        (ALONE + before) as usize + self.box_number(thread, place)
    }
}
