//! What the key of a table sets up, and the fact that a user of it keeps of its slots, and of what
//! stands beside the views.

use crate::terms::Terms;

/// What the key of a table sets up, and what a user of the table keeps of its slots, and beside
/// the views.
pub trait SlotRule<S, X, K> {
    ghost use Rattle.core_events.specs.Setups.{Setup};
    ghost use Rattle.core_events.specs.Words.{State};
    ghost use Rattle.std.specs.Prelude.{List};
    ghost use mathlib.Core.Option.{Option};

    /// What the machine is set up with, by the key of the table.
    ghost setup: { K → Setup };

    /// Of the key, the state, what the seats know beside their views, and the slots at home.
    ghost fact: { K → State → List X → List (Option S) → Type 0 };

    /// What a new seat knows beside its view.
    ghost beside: { X };
}

/// Nothing is kept of the slots, and nothing beside the views. It is known what the medium gives,
/// and a turn may fail.
pub struct AnySlots;

impl<S> SlotRule<S, (), Terms> for AnySlots {
    ghost use Rattle.std.specs.Prelude.{true};

    ghost setup = { λ z. record z { is_told = true; may_fail = true } };

    ghost fact = { λ z c xs homes. Unit {0} };

    ghost beside = { tt };
}
