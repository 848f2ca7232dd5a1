//! The steps of a transaction that reads.

ghost use Rattle.core_events.specs.Events.{begin, check, extend, load, look, number};
ghost use Rattle.core_events.specs.Keyed.{find};
ghost use Rattle.core_events.specs.Setups.{page_of};
ghost use Rattle.core_table.specs.Abouts.{finishing};
ghost use Rattle.core_table.specs.Steps.{MayStep, StepFinds};
ghost use Rattle.std.specs.Prelude.{◌≡◌, Some};

use crate::change::Change;
use crate::event_table::Seat;
use crate::places::{CLOCK, THREADS};
use crate::served::Served;
use crate::slot_rule::SlotRule;
use crate::stm::Stm;
use std::marker::Brand;

impl<S, X, K, P: SlotRule<S, X, K>> Stm<S, X, K, P> {
    /// Draws a number for the thread of this seat.
    pub fn number(&self, seat: &mut Seat<S, X>) -> u64
        requires may { MayStep P.fact self.now.events number seat.old }
        ensures { StepFinds self.now.events number seat.old seat.new result }
    {
        self.events
            .change_as::<Brand, ()>(seat, THREADS, Change::Add { more: 1 }, &())
    }

    /// Begins a transaction at the clock, its snapshot.
    pub fn clock(&self, seat: &mut Seat<S, X>) -> u64
        requires may { MayStep P.fact self.now.events begin seat.old }
        ensures { StepFinds self.now.events begin seat.old seat.new result }
    {
        self.events.load_as::<Brand, ()>(seat, CLOCK, &())
    }

    /// Begins an extension of the snapshot to the clock.
    pub fn extend(&self, seat: &mut Seat<S, X>) -> u64
        requires may { MayStep P.fact self.now.events extend seat.old }
        ensures { StepFinds self.now.events extend seat.old seat.new result }
    {
        self.events.load_as::<Brand, ()>(seat, CLOCK, &())
    }

    /// Looks at a lock.
    pub fn look(&self, seat: &mut Seat<S, X>, lock: u64) -> u64
        requires may { MayStep P.fact self.now.events (look lock) seat.old }
        ensures { StepFinds self.now.events (look lock) seat.old seat.new result }
    {
        self.events
            .load_as::<Brand, u64>(seat, self.events.lock_place(lock), &lock)
    }

    /// Loads a home word, in the frame of its page, which the view pins.
    pub fn load(&self, seat: &mut Seat<S, X>, at: u64, frame: u64) -> u64
        requires frame { find seat.old.me.0.view.paging.pins (page_of at) ≡ Some frame }
        requires may { MayStep P.fact self.now.events (load at) seat.old }
        ensures { StepFinds self.now.events (load at) seat.old seat.new result }
    {
        self.events
            .load_as::<Brand, u64>(seat, self.events.cell_place(frame, at), &at)
    }

    /// Looks at a lock again.
    pub fn check(&self, seat: &mut Seat<S, X>, lock: u64) -> u64
        requires may { MayStep P.fact self.now.events (check lock) seat.old }
        ensures { StepFinds self.now.events (check lock) seat.old seat.new result }
    {
        self.events
            .load_as::<Brand, u64>(seat, self.events.lock_place(lock), &lock)
    }

    /// Ends a transaction that drew no number. The request and its reply go into its entry.
    pub fn finish(&self, seat: &mut Seat<S, X>, served: &Served) -> u64
        requires may { MayStep P.fact self.now.events (finishing served.now) seat.old }
        ensures { StepFinds self.now.events (finishing served.now) seat.old seat.new result }
    {
        self.events.load_as::<Brand, Served>(seat, THREADS, served)
    }
}
