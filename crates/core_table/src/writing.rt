//! The steps of a transaction that writes.

ghost use Rattle.core_events.specs.Events.{decide, release, restore, store, take, first_lock};
ghost use Rattle.core_events.specs.Keyed.{find};
ghost use Rattle.core_events.specs.Setups.{page_of};
ghost use Rattle.core_table.specs.Abouts.{drawing};
ghost use Rattle.core_table.specs.Steps.{MayStep, StepFinds, StepMakes};
ghost use Rattle.dude_base.specs.Writes.{written};
ghost use Rattle.std.specs.Prelude.{◌≡◌, ◌<◌, Some};

use crate::change::Change;
use crate::event_table::Seat;
use crate::places::CLOCK;
use crate::served::Served;
use crate::slot_rule::SlotRule;
use crate::stm::Stm;
use dude_base::write_list::WriteList;
use std::marker::Brand;

impl<S, X, K, P: SlotRule<S, X, K>> Stm<S, X, K, P> {
    /// Takes a lock, whose word at the last look was `seen`.
    pub fn take(&self, seat: &mut Seat<S, X>, lock: u64, seen: u64, thread: u64) -> u64
        requires seen { seat.old.me.0.view.tx.look ≡ Some (lock, seen) }
        requires thread { seat.old.me.0.view.part.thread ≡ Some thread }
        requires may { MayStep P.fact self.now.events (take lock) seat.old }
        ensures { StepFinds self.now.events (take lock) seat.old seat.new result }
    {
        let owned = Change::Exchange {
            from: seen,
            to: 2 * thread + 1,
        };
        self.events
            .change_as::<Brand, u64>(seat, self.events.lock_place(lock), owned, &lock)
    }

    /// Draws the number behind the one found, for these writes.
    pub fn draw(&self, seat: &mut Seat<S, X>, served: &Served, writes: &WriteList) -> u64
        requires may { MayStep P.fact self.now.events (drawing served.now writes.now) seat.old }
        ensures { StepFinds self.now.events (drawing served.now writes.now)
            seat.old seat.new result }
    {
        let next = Change::Add { more: 1 };
        self.events
            .change_as::<Brand, (&Served, &WriteList)>(seat, CLOCK, next, &(served, writes))
    }

    /// Decides the number, by a load of the lock that was taken last.
    pub fn decide(&self, seat: &mut Seat<S, X>, lock: u64) -> u64
        requires lock { lock ≡ first_lock seat.old.me.0.view.tx.owned }
        requires may { MayStep P.fact self.now.events decide seat.old }
        ensures { StepFinds self.now.events decide seat.old seat.new result }
    {
        self.events
            .load_as::<Brand, ()>(seat, self.events.lock_place(lock), &())
    }

    /// Stores a written value, in the frame of its page, which the view pins.
    pub fn store(&self, seat: &mut Seat<S, X>, at: u64, frame: u64, value: u64)
        requires frame { find seat.old.me.0.view.paging.pins (page_of at) ≡ Some frame }
        requires value { written seat.old.me.0.view.tx.hand.writes at ≡ Some value }
        requires may { MayStep P.fact self.now.events (store at) seat.old }
        ensures { StepMakes self.now.events (store at) seat.old seat.new }
    {
        self.events
            .store_as::<Brand, u64>(seat, self.events.cell_place(frame, at), value, &at)
    }

    /// Gives a lock back, with the number as its version.
    pub fn release(&self, seat: &mut Seat<S, X>, lock: u64, number: u64)
        requires number { seat.old.me.0.view.tx.hand.number ≡ number }
        requires may { MayStep P.fact self.now.events (release lock) seat.old }
        ensures { StepMakes self.now.events (release lock) seat.old seat.new }
    {
        self.events
            .store_as::<Brand, u64>(seat, self.events.lock_place(lock), 2 * number, &lock)
    }

    /// Gives a lock back, with the word that it had.
    pub fn restore(&self, seat: &mut Seat<S, X>, lock: u64, old: u64)
        requires old { find seat.old.me.0.view.tx.owned lock ≡ Some old }
        requires may { MayStep P.fact self.now.events (restore lock) seat.old }
        ensures { StepMakes self.now.events (restore lock) seat.old seat.new }
    {
        self.events
            .store_as::<Brand, u64>(seat, self.events.lock_place(lock), old, &lock)
    }
}
