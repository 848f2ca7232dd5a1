//! A table is made, seats are split and joined, and the table is closed.

ghost use Rattle.core_table.specs.Rules.{OutlastsSplit, OutlastsJoin};
ghost use Rattle.core_table.specs.Seats.{CanSplit, CanJoin, known_left, known_both};
ghost use Rattle.core_table.specs.Steps.{BelongsTo, MayOpen, IsOpened, IsSplitOff, NowKnows, HasCounts, EndsWith};
ghost use Rattle.std.specs.Mem.Slots.{slots_items, slots_len, IsFull};
ghost use Rattle.std.specs.Prelude.{◌≡◌, [], IfOk, IfErr};

use crate::event_table::{EventTable, Opened, Seat};
use crate::slot_rule::SlotRule;
use crate::stm::Stm;
use crate::terms::Terms;
use atomic_table::Closed;
use std::alloc::Global;
use std::marker::Brand;

impl<S, X, K, P: SlotRule<S, X, K>> Stm<S, X, K, P> {
    /// The words at the start, by this key and these terms, these slots, and the first seat. Where
    /// memory is wanting the slots come back.
    pub fn new(alloc: Global, key: &K, terms: &Terms, slots: Vec<S>) -> Opened<Self, S, X>
        requires may { MayOpen P.setup P.fact P.beside key.now terms.now slots.items }
        ensures ok { IfOk result (λ r. IsOpened P.setup P.beside r.0.events key.now r.1) }
        ensures err { IfErr result (λ r. r.slots.items ≡ slots.items) }
    {
        let (events, seat) = EventTable::new(alloc, key, terms, slots)?;
        Ok((Stm { events }, seat))
    }

    /// Splits off a new seat with so many draws, which has no thread's number.
    pub fn split(&self, seat: &mut Seat<S, X>, draws: u64) -> Seat<S, X>
        requires seat { BelongsTo self.now.events seat.old }
        requires can { CanSplit seat.old.me.0.view draws }
        requires slots { OutlastsSplit (P.fact self.now.events.key) self.now.events.setup draws
            P.beside }
        ensures seat { NowKnows self.now.events seat.old seat.new (known_left draws seat.old.me.0) }
        ensures other { IsSplitOff P.beside self.now.events draws result }
    {
        self.events.split_as::<Brand>(seat, draws)
    }

    /// Takes in another seat, which holds no slot.
    pub fn join(&self, seat: &mut Seat<S, X>, other: Seat<S, X>)
        requires seat { BelongsTo self.now.events seat.old }
        requires other { BelongsTo self.now.events other × (other.me.1 ≡ []) }
        requires can { CanJoin seat.old.me.0.view other.me.0.view }
        requires slots { OutlastsJoin (P.fact self.now.events.key) self.now.events.setup P.beside }
        ensures { NowKnows self.now.events seat.old seat.new (known_both seat.old.me.0 other.me.0) }
    {
        self.events.join_as::<Brand>(seat, other);
    }

    /// Ends the table with the last seat: its words and slots are those of a state that keeps the
    /// rule, in which the seat knows what it knows.
    pub fn close(self, seat: Seat<S, X>) -> Closed<S, Global>
        requires { BelongsTo self.events seat }
        ensures counts { HasCounts self.events (slots_len result.words) (slots_len result.slots) }
        ensures full { IsFull result.words × IsFull result.slots }
        ensures values { EndsWith P.fact self.events seat
            (slots_items result.words) (slots_items result.slots) }
    {
        let Stm { events } = self;
        events.close(seat)
    }
}
