//! The atomic steps, each once, for any event that is a step of its form.

ghost use Rattle.core_table.specs.Steps.{MayStepAt, WordBecomes, WordChanges, IsBlind, StepFinds, StepMakes};

use crate::change::{Change, change_word};
use crate::choice::Choice;
use crate::event_table::{EventTable, Seat};
use crate::known::Known;
use crate::law::Law;
use crate::plays::{Does, Puts};
use crate::slot_rule::SlotRule;

impl<S, X, K, P: SlotRule<S, X, K>> EventTable<S, X, K, P> {
    /// A load that is the event of `E`. The event is picked from `_about`.
    pub fn load_as<E: Choice, T>(&self, seat: &mut Seat<S, X>, place: usize, _about: &T) -> u64
        requires may { MayStepAt P.fact self.now E.event seat.old E.setup place }
        requires word { WordBecomes self.now E.event seat.old (λ n. n) }
        ensures { StepFinds self.now E.event seat.old seat.new result }
    {
        self.table.shared.load::<Does<E>>(seat, place)
    }

    /// A store that is the event of `E`.
    pub fn store_as<E: Choice, T>(&self, seat: &mut Seat<S, X>, place: usize, new: u64, _about: &T)
        requires may { MayStepAt P.fact self.now E.event seat.old E.setup place }
        requires word { WordBecomes self.now E.event seat.old (λ n. new) }
        requires blind { IsBlind self.now E.event seat.old }
        ensures { StepMakes self.now E.event seat.old seat.new }
    {
        self.table.shared.store::<Puts<E>>(seat, place, new)
    }

    /// A change of the word found that is the event of `E`.
    #[inline(always)]
    pub fn change_as<E: Choice, T>(
        &self,
        seat: &mut Seat<S, X>,
        place: usize,
        change: Change,
        _about: &T,
    ) -> u64
        requires may { MayStepAt P.fact self.now E.event seat.old E.setup place }
        requires word { WordChanges self.now E.event seat.old change }
        ensures { StepFinds self.now E.event seat.old seat.new result }
    {
        change_word::<S, Known<X>, K, Law<P>, Does<E>>(&self.table.shared, seat, place, change)
    }
}
