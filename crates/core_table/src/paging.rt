//! The steps on pages and frames.

ghost use Rattle.core_events.specs.Events.{entry, evict, fill, load_touch, pin, show, touch, unpin};
ghost use Rattle.core_events.specs.Keyed.{find};
ghost use Rattle.core_table.specs.Steps.{MayStep, IsForeseen, StepFinds, StepMakes};
ghost use Rattle.std.specs.Prelude.{◌≡◌, Some};

use crate::change::Change;
use crate::event_table::Seat;
use crate::places::ENTRY;
use crate::slot_rule::SlotRule;
use crate::stm::Stm;
use std::marker::Brand;

impl<S, X, K, P: SlotRule<S, X, K>> Stm<S, X, K, P> {
    /// Loads the entry of a page.
    pub fn entry(&self, seat: &mut Seat<S, X>, page: u64) -> u64
        requires may { MayStep P.fact self.now.events (entry page) seat.old }
        ensures { StepFinds self.now.events (entry page) seat.old seat.new result }
    {
        self.events
            .load_as::<Brand, u64>(seat, self.events.entry_place(page), &page)
    }

    /// Loads the touch of a page.
    pub fn load_touch(&self, seat: &mut Seat<S, X>, page: u64) -> u64
        requires may { MayStep P.fact self.now.events (load_touch page) seat.old }
        ensures { StepFinds self.now.events (load_touch page) seat.old seat.new result }
    {
        self.events
            .load_as::<Brand, u64>(seat, self.events.touch_place(page), &page)
    }

    /// Raises the touch of a page to the number.
    pub fn touch(&self, seat: &mut Seat<S, X>, page: u64, number: u64)
        requires number { seat.old.me.0.view.tx.hand.number ≡ number }
        requires may { MayStep P.fact self.now.events (touch page) seat.old }
        ensures { StepMakes self.now.events (touch page) seat.old seat.new }
    {
        let touched = Change::Raise { least: number };
        self.events
            .change_as::<Brand, u64>(seat, self.events.touch_place(page), touched, &page);
    }

    /// Pins a page, whose entry was `kept`.
    pub fn pin(&self, seat: &mut Seat<S, X>, page: u64, kept: u64) -> u64
        requires kept { find seat.old.me.0.view.paging.entries page ≡ Some kept }
        requires may { MayStep P.fact self.now.events (pin page) seat.old }
        ensures { StepFinds self.now.events (pin page) seat.old seat.new result }
    {
        let place = self.events.entry_place(page);
        // Where the word is `kept`, it is the entry of a frame, and far from wrapping.
        let pinned = Change::Exchange {
            from: kept,
            to: kept.wrapping_add(1),
        };
        self.events
            .change_as::<Brand, u64>(seat, place, pinned, &page)
    }

    /// Takes the pin of a page back.
    pub fn unpin(&self, seat: &mut Seat<S, X>, page: u64) -> u64
        requires may { MayStep P.fact self.now.events (unpin page) seat.old }
        ensures { StepFinds self.now.events (unpin page) seat.old seat.new result }
    {
        let unpinned = Change::Subtract { less: 1 };
        self.events
            .change_as::<Brand, u64>(seat, self.events.entry_place(page), unpinned, &page)
    }

    /// Makes a page absent, whose entry was `kept`, unless it is pinned.
    pub fn evict(&self, seat: &mut Seat<S, X>, page: u64, kept: u64) -> u64
        requires kept { find seat.old.me.0.view.paging.entries page ≡ Some kept }
        requires may { MayStep P.fact self.now.events (evict page) seat.old }
        ensures { StepFinds self.now.events (evict page) seat.old seat.new result }
    {
        let place = self.events.entry_place(page);
        let unpinned = kept / ENTRY * ENTRY;
        let absent = Change::Exchange {
            from: unpinned,
            to: 0,
        };
        self.events
            .change_as::<Brand, u64>(seat, place, absent, &page)
    }

    /// Stores a home word of an absent page in a free frame.
    pub fn fill(&self, seat: &mut Seat<S, X>, page: u64, frame: u64, at: u64, value: u64)
        requires may { MayStep P.fact self.now.events (fill page frame at value) seat.old }
        requires fits { IsForeseen P.fact self.now.events (fill page frame at value) seat.old }
        ensures { StepMakes self.now.events (fill page frame at value) seat.old seat.new }
    {
        self.events.store_as::<Brand, (u64, u64, u64, u64)>(
            seat,
            self.events.cell_place(frame, at),
            value,
            &(page, frame, at, value),
        )
    }

    /// Stores the entry of a page whose words are all filled in this frame.
    pub fn show(&self, seat: &mut Seat<S, X>, page: u64, frame: u64)
        requires may { MayStep P.fact self.now.events (show page frame) seat.old }
        ensures { StepMakes self.now.events (show page frame) seat.old seat.new }
    {
        self.events.store_as::<Brand, (u64, u64)>(
            seat,
            self.events.entry_place(page),
            (frame + 1) * ENTRY,
            &(page, frame),
        )
    }
}
