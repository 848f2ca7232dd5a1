//! The event that a call stands for where it moves slots.

use std::marker::Brand;

/// The event that a step is where it moves slots or changes what is kept beside the view, the
/// setup, and what the step tells. Each call picks them.
pub trait SlotChoice<S, X> {
    ghost use Rattle.atomic_table.specs.Table.{Me};
    ghost use Rattle.core_events.specs.Events.{Event};
    ghost use Rattle.core_events.specs.Setups.{Setup};
    ghost use Rattle.core_table.specs.Known.{Known};
    ghost use Rattle.std.specs.Prelude.{ℕ};

    ghost setup: { Setup };

    ghost event: { Event };

    /// Of the number found, and of the seat after.
    ghost then: { ℕ → Me S (Known X) → Type 0 };
}

impl<S, X> SlotChoice<S, X> for Brand {
    ghost use Rattle.core_events.specs.Events.{begin};
    ghost use Rattle.core_table.specs.Rules.{no_setup};

    ghost setup = { no_setup };

    ghost event = { begin };

    ghost then = { λ n w. Unit {0} };
}
