//! Why an event wasn't made.

ghost use Rattle.dude_core.specs.declared.core_refusal.CoreRefusal.{CoreRefusal};
ghost use Rattle.std.specs.Prelude.{◌≡◌};

use std::alloc::AllocError;

/// Why an event wasn't made.
#[derive(Clone, Copy, Debug, PartialEq, Eq)]
pub enum CoreRefusal {
    /// The definitions don't allow it.
    Off,
    /// There is no memory.
    NoMemory,
}

impl From<AllocError> for CoreRefusal {
    ghost from_gives = { λ e r. r ≡ CoreRefusal.NoMemory };

    fn from(_: AllocError) -> Self {
        CoreRefusal::NoMemory
    }
}
