//! The atomic steps that move slots, each once for any event that is a step of its form, and the
//! change and the loan of a slot that a seat took.

ghost use Rattle.atomic_table.specs.Table.{rest};
ghost use Rattle.core_table.specs.Lent.{LendsSlot};
ghost use Rattle.core_table.specs.Steps.{MayAct, IsForeseen, StepsAt, WordBecomes, WordChanges, IsSameSeat, HasSlot};
ghost use Rattle.std.specs.Borrow.{sem};
ghost use Rattle.std.specs.Prelude.{◌≡◌, ◌∷◌};

use crate::change::{Change, change_word};
use crate::event_table::{EventTable, Seat};
use crate::known::Known;
use crate::law::Law;
use crate::plays::{DoesWithSlots, PutsWithSlots};
use crate::slot_choice::SlotChoice;
use crate::slot_rule::SlotRule;

impl<S, X, K, P: SlotRule<S, X, K>> EventTable<S, X, K, P> {
    /// A load that is the event of `E`. The event is picked from `_about`.
    pub fn load_by<E: SlotChoice<S, X>, T>(
        &self,
        seat: &mut Seat<S, X>,
        place: usize,
        _about: &T,
    ) -> u64
        requires at { StepsAt self.now E.event seat.old E.setup place }
        requires may { MayAct P.fact self.now E.event seat.old E.then }
        requires fits { IsForeseen P.fact self.now E.event seat.old }
        requires word { WordBecomes self.now E.event seat.old (λ n. n) }
        ensures seat { IsSameSeat seat.old seat.new }
        ensures then { E.then result seat.new.me }
    {
        self.table.shared.load::<DoesWithSlots<E>>(seat, place)
    }

    /// A store that is the event of `E`. It isn't told what it found.
    pub fn store_by<E: SlotChoice<S, X>, T>(
        &self,
        seat: &mut Seat<S, X>,
        place: usize,
        new: u64,
        _about: &T,
    )
        requires at { StepsAt self.now E.event seat.old E.setup place }
        requires may { MayAct P.fact self.now E.event seat.old (λ n. E.then 0) }
        requires fits { IsForeseen P.fact self.now E.event seat.old }
        requires word { WordBecomes self.now E.event seat.old (λ n. new) }
        ensures seat { IsSameSeat seat.old seat.new }
        ensures then { E.then 0 seat.new.me }
    {
        self.table
            .shared
            .store::<PutsWithSlots<E>>(seat, place, new)
    }

    /// A change of the word found that is the event of `E`.
    #[inline(always)]
    pub fn change_by<E: SlotChoice<S, X>, T>(
        &self,
        seat: &mut Seat<S, X>,
        place: usize,
        form: Change,
        _about: &T,
    ) -> u64
        requires word { WordChanges self.now E.event seat.old form }
        requires at { StepsAt self.now E.event seat.old E.setup place }
        requires may { MayAct P.fact self.now E.event seat.old E.then }
        requires fits { IsForeseen P.fact self.now E.event seat.old }
        ensures seat { IsSameSeat seat.old seat.new }
        ensures then { E.then result seat.new.me }
    {
        let table = &self.table.shared;
        change_word::<S, Known<X>, K, Law<P>, DoesWithSlots<E>>(table, seat, place, form)
    }

    /// Puts a value in the slot that the seat took last, and gives the one that was there.
    pub fn change_slot(&self, seat: &mut Seat<S, X>, slot: usize, new: S) -> S
        requires table { seat.old.table_id ≡ self.now.id }
        requires front { HasSlot seat.old slot }
        ensures seat { IsSameSeat seat.old seat.new }
        ensures me { seat.new.me ≡ (seat.old.me.0, (slot, new) ∷ rest seat.old.me.1) }
        ensures was { seat.old.me.1 ≡ (slot, result) ∷ rest seat.old.me.1 }
    {
        self.table.shared.exchange(seat, slot, new)
    }
}

/// The value in the slot that the seat took last. When the borrow ends, the seat has what was
/// written through it.
pub fn lend_slot<'a, S, X, K, P: SlotRule<S, X, K>>(
    seat: &'a mut Seat<S, X>,
    events: &'a EventTable<S, X, K, P>,
    slot: usize,
) -> &'a mut S
    requires table { seat.old.table_id ≡ events.now.id }
    requires front { HasSlot seat.old slot }
    ensures* writes_back { sem 𝓛 (LendsSlot S.row X.row seat.entry slot result) }
    ensures value { seat.old.me.1 ≡ (slot, result.now) ∷ rest seat.old.me.1 }
{
    seat.slot_mut(&events.table.shared, slot)
}
