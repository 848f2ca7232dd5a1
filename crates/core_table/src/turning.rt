//! The steps on boxes, and those of the turn.

ghost use Rattle.core_events.specs.Events.{empty_box, give_turn, post, raise_durable, raise_reproduced, see_box, see_full, take_turn};
ghost use Rattle.core_table.specs.Steps.{MayStep, IsForeseen, StepFinds, StepMakes};
ghost use Rattle.std.specs.Prelude.{◌≡◌, Some};

use crate::change::Change;
use crate::event_table::Seat;
use crate::places::{DURABLE, REPRODUCED, TURN};
use crate::slot_rule::SlotRule;
use crate::stm::Stm;
use std::marker::Brand;

impl<S, X, K, P: SlotRule<S, X, K>> Stm<S, X, K, P> {
    /// Loads the word of the thread's next box.
    pub fn see_box(&self, seat: &mut Seat<S, X>, thread: u64, place: u64) -> u64
        requires thread { seat.old.me.0.view.part.thread ≡ Some thread }
        requires place { seat.old.me.0.view.box.next ≡ place }
        requires may { MayStep P.fact self.now.events see_box seat.old }
        ensures { StepFinds self.now.events see_box seat.old seat.new result }
    {
        self.events
            .load_as::<Brand, ()>(seat, self.events.box_place(thread, place), &())
    }

    /// Stores the number in the thread's next box, and ends the transaction.
    pub fn post(&self, seat: &mut Seat<S, X>, thread: u64, place: u64, number: u64)
        requires thread { seat.old.me.0.view.part.thread ≡ Some thread }
        requires place { seat.old.me.0.view.box.next ≡ place }
        requires number { seat.old.me.0.view.tx.hand.number ≡ number }
        requires may { MayStep P.fact self.now.events post seat.old }
        ensures { StepMakes self.now.events post seat.old seat.new }
    {
        self.events
            .store_as::<Brand, ()>(seat, self.events.box_place(thread, place), number, &())
    }

    /// Takes the turn, where nobody has it.
    pub fn take_turn(&self, seat: &mut Seat<S, X>, thread: u64) -> u64
        requires thread { seat.old.me.0.view.part.thread ≡ Some thread }
        requires may { MayStep P.fact self.now.events take_turn seat.old }
        ensures { StepFinds self.now.events take_turn seat.old seat.new result }
    {
        let had = Change::Exchange {
            from: 0,
            to: thread + 1,
        };
        self.events.change_as::<Brand, ()>(seat, TURN, had, &())
    }

    /// Gives the turn back; `failed` says whether it met a fault.
    pub fn give_turn(&self, seat: &mut Seat<S, X>, failed: bool)
        requires may { MayStep P.fact self.now.events (give_turn failed) seat.old }
        ensures { StepMakes self.now.events (give_turn failed) seat.old seat.new }
    {
        self.events.store_as::<Brand, bool>(seat, TURN, 0, &failed)
    }

    /// Loads the word of a box, while the turn is had.
    pub fn see_full(&self, seat: &mut Seat<S, X>, thread: u64, place: u64) -> u64
        requires may { MayStep P.fact self.now.events (see_full thread place) seat.old }
        ensures { StepFinds self.now.events (see_full thread place) seat.old seat.new result }
    {
        self.events.load_as::<Brand, (u64, u64)>(
            seat,
            self.events.box_place(thread, place),
            &(thread, place),
        )
    }

    /// Empties a box, whose record was persisted.
    pub fn empty_box(&self, seat: &mut Seat<S, X>, thread: u64, place: u64)
        requires may { MayStep P.fact self.now.events (empty_box thread place) seat.old }
        requires fits { IsForeseen P.fact self.now.events (empty_box thread place) seat.old }
        ensures { StepMakes self.now.events (empty_box thread place) seat.old seat.new }
    {
        self.events.store_as::<Brand, (u64, u64)>(
            seat,
            self.events.box_place(thread, place),
            0,
            &(thread, place),
        )
    }

    /// Stores the durable number. What is persisted is left to the user's fact.
    pub fn raise_durable(&self, seat: &mut Seat<S, X>, value: u64)
        requires may { MayStep P.fact self.now.events (raise_durable value) seat.old }
        requires fits { IsForeseen P.fact self.now.events (raise_durable value) seat.old }
        ensures { StepMakes self.now.events (raise_durable value) seat.old seat.new }
    {
        self.events.store_as::<Brand, ()>(seat, DURABLE, value, &())
    }

    /// Stores the reproduced number. What the home has is left to the user's fact.
    pub fn raise_reproduced(&self, seat: &mut Seat<S, X>, value: u64)
        requires may { MayStep P.fact self.now.events (raise_reproduced value) seat.old }
        requires fits { IsForeseen P.fact self.now.events (raise_reproduced value) seat.old }
        ensures { StepMakes self.now.events (raise_reproduced value) seat.old seat.new }
    {
        self.events
            .store_as::<Brand, ()>(seat, REPRODUCED, value, &())
    }
}
