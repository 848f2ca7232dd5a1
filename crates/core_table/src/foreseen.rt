//! What a seat knows of the rest of the state by its view alone, for the events that ask something
//! of it.

ghost use Rattle.core_table.specs.Foreseen.{EmptiesFull, RaisesDurable, RaisesReproduced};

use crate::slot_rule::SlotRule;

/// A seat with the turn may empty a box whose number it keeps. One that drew a number, and may draw
/// all greater ones, may raise the durable and the reproduced number to it.
pub fn law_of_foreseen<S, X, K, P: SlotRule<S, X, K>>()
    ensures empty { EmptiesFull P.fact }
    ensures durable { RaisesDurable P.fact }
    ensures reproduced { RaisesReproduced P.fact }
{}
