//! Why an array was refused.

ghost use Rattle.std.specs.Prelude.{◌≡◌};
ghost use Rattle.tatp_check.specs.declared.check_fault.CheckFault.TheVariants as why;

use std::alloc::AllocError;

/// Why an array was refused.
#[derive(Clone, Copy)]
pub enum CheckFault {
    /// The array stands for no tables. This is the first word, in the order of checking, at which something is wrong.
    NotDb { word: u64 },
    /// The check needs more memory than there is.
    NoMemory,
}

impl From<AllocError> for CheckFault {
    ghost from_gives = { λ _ fault. fault ≡ why.NoMemory };

    fn from(_refused: AllocError) -> Self {
        CheckFault::NoMemory
    }
}
