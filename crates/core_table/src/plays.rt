//! What a step tells its seat.

use crate::choice::Choice;
use crate::cut::Cut;
use crate::known::Known;
use crate::slot_choice::SlotChoice;
use atomic_table::Play;
use std::marker::PhantomData;

/// A step that is the event and is told what it found.
pub struct Does<E> {
    marker: PhantomData<E>,
}

impl<S, X, E: Choice> Play<S, Known<X>> for Does<E> {
    ghost use Rattle.core_table.specs.Steps.{Does};

    ghost then = { λ st m n w. Does E.setup E.event m n w };
}

/// A store, which isn't told what it found.
pub struct Puts<E> {
    marker: PhantomData<E>,
}

impl<S, X, E: Choice> Play<S, Known<X>> for Puts<E> {
    ghost use Rattle.core_table.specs.Steps.{Puts};

    ghost then = { λ st m n w. Puts E.setup E.event m w };
}

/// A step that moves slots or changes what is kept beside the view.
pub struct DoesWithSlots<E> {
    marker: PhantomData<E>,
}

impl<S, X, E: SlotChoice<S, X>> Play<S, Known<X>> for DoesWithSlots<E> {
    ghost then = { λ st m n w. E.then n w };
}

/// A store of that kind, which isn't told what it found.
pub struct PutsWithSlots<E> {
    marker: PhantomData<E>,
}

impl<S, X, E: SlotChoice<S, X>> Play<S, Known<X>> for PutsWithSlots<E> {
    ghost then = { λ st m n w. E.then 0 w };
}

/// A load that changes nothing, and tells what holds of the view. The setup is that of `C`.
pub struct Rests<C> {
    marker: PhantomData<C>,
}

impl<S, X, C: Cut> Play<S, Known<X>> for Rests<C> {
    ghost use Rattle.core_table.specs.Steps.{Rests};

    ghost then = { λ st m n w. Rests C.setup m w };
}
