//! Why a history of steps didn't come to its end.

ghost use Rattle.std.specs.Prelude.{◌≡◌, OnOk};

use atomic_table::Refused;
use std::alloc::{AllocError, Global};

/// Why a history didn't come to its end.
#[derive(Drop)]
pub enum Trouble {
    /// A word isn't the one that was expected.
    Odd { found: u64, wanted: u64 },
    NoMemory,
}

impl From<AllocError> for Trouble {
    fn from(_: AllocError) -> Self {
        Trouble::NoMemory
    }
}

impl From<Refused<(), Global>> for Trouble {
    fn from(_: Refused<(), Global>) -> Self {
        Trouble::NoMemory
    }
}

/// Whether the word that was found is the one that was expected.
pub fn expect(found: u64, wanted: u64) -> Result<(), Trouble>
    ensures { OnOk result (found ≡ wanted) }
{
    if found == wanted {
        Ok(())
    } else {
        Err(Trouble::Odd { found, wanted })
    }
}
