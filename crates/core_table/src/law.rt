//! The rule of the table: its words and views are those of a kept state.

use crate::known::Known;
use crate::slot_rule::SlotRule;
use atomic_table::TableRule;
use std::marker::PhantomData;

/// The words and the views are those of a kept state of the machine.
pub struct Law<P> {
    marker: PhantomData<P>,
}

impl<S, X, K, P: SlotRule<S, X, K>> TableRule<S, Known<X>, K> for Law<P> {
    ghost use Rattle.core_table.specs.Known.{known_with};
    ghost use Rattle.core_table.specs.Rules.{Holds};
    ghost use Rattle.core_table.specs.Seats.{opener};

    ghost holds = { λ key. Holds (P.fact key) (P.setup key) };

    ghost first = { λ key. known_with (opener (P.setup key)) P.beside };
}
