//! A seat is split in two, and two seats are joined.

ghost use Rattle.core_table.specs.Rules.{OutlastsSplit, OutlastsJoin};
ghost use Rattle.core_table.specs.Seats.{CanSplit, CanJoin, known_left, known_both};
ghost use Rattle.core_table.specs.Steps.{BelongsTo, IsSplitOff, NowKnows};
ghost use Rattle.std.specs.Prelude.{◌≡◌, []};

use crate::cut::Cut;
use crate::event_table::{EventTable, Seat};
use crate::places::THREADS;
use crate::plays::Rests;
use crate::seat_moves::{Joins, Splits};
use crate::slot_rule::SlotRule;

impl<S, X, K, P: SlotRule<S, X, K>> EventTable<S, X, K, P> {
    /// A split that hands on the draws of `C`, which are picked from `_draws`.
    pub fn split_as<C: Cut>(&self, seat: &mut Seat<S, X>, _draws: u64) -> Seat<S, X>
        requires setup { C.setup ≡ self.now.setup }
        requires seat { BelongsTo self.now seat.old }
        requires can { CanSplit seat.old.me.0.view C.draws }
        requires slots { OutlastsSplit (P.fact self.now.key) self.now.setup C.draws P.beside }
        ensures seat { NowKnows self.now seat.old seat.new (known_left C.draws seat.old.me.0) }
        ensures other { IsSplitOff P.beside self.now C.draws result }
    {
        self.table.shared.split_seat::<Splits<S, K, P, C>>(seat)
    }

    /// A join, with a load of the count of threads behind it. The setup is that of `C`.
    pub fn join_as<C: Cut>(&self, seat: &mut Seat<S, X>, other: Seat<S, X>)
        requires setup { C.setup ≡ self.now.setup }
        requires seat { BelongsTo self.now seat.old }
        requires other { BelongsTo self.now other × (other.me.1 ≡ []) }
        requires can { CanJoin seat.old.me.0.view other.me.0.view }
        requires slots { OutlastsJoin (P.fact self.now.key) self.now.setup P.beside }
        ensures { NowKnows self.now seat.old seat.new (known_both seat.old.me.0 other.me.0) }
    {
        self.table
            .shared
            .join_seat::<Joins<S, K, P, C>>(seat, other);
        self.table.shared.load::<Rests<C>>(seat, THREADS);
    }
}
