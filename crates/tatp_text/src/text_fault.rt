//! Why a request file was not read.

ghost use Rattle.std.specs.Prelude.{◌≡◌};
ghost use Rattle.tatp_text.specs.declared.text_fault.TextFault.TheVariants.{NoMemory};

use std::alloc::{AllocError, AllocFailed};

/// Why a request file was not read.
#[derive(Clone, Copy)]
pub enum TextFault {
    /// The first bad record and its first bad field, counted from 1. The field is 0 where the record's name or its count
    /// of fields is wrong; both are 0 where no record is named, as for a file of too many bytes.
    Bad { row: u64, field: u64 },
    /// There was no memory for the requests.
    NoMemory,
}

impl From<AllocError> for TextFault {
    ghost from_gives = { λ _ fault. fault ≡ NoMemory };

    fn from(_: AllocError) -> TextFault {
        TextFault::NoMemory
    }
}

impl<T: Drop> From<AllocFailed<T>> for TextFault {
    ghost from_gives = { λ _ fault. fault ≡ NoMemory };

    fn from(_: AllocFailed<T>) -> TextFault {
        TextFault::NoMemory
    }
}
