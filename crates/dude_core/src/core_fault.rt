//! Why no core was made.

ghost use Rattle.dude_core.specs.Texts.{fault_words};
ghost use Rattle.dude_core.specs.declared.core_fault.CoreFault.TheVariants.{NoMemory};
ghost use Rattle.std.specs.Prelude.{Some, ◌≡◌};

use std::alloc::AllocError;
use std::error::Error;
use std::fmt;

/// Why no core was made.
#[derive(Clone, Copy, Debug)]
pub enum CoreFault {
    /// The run, or the number of threads, is out of its limits. These are the frames that were
    /// asked for, and the pages that there are.
    Size { frames: u64, pages: u64 },
    /// There is no memory.
    NoMemory,
}

impl fmt::Display for CoreFault {
    ghost output = { λ fault. Some (fault_words fault) };

    fn fmt<W: fmt::Write>(&self, f: &mut fmt::Formatter<W>) -> fmt::Result {
        match self {
            CoreFault::Size { frames, pages } => {
                write!(
                    f,
                    "a run out of its limits, with {frames} frames of {pages} pages"
                )
            }
            CoreFault::NoMemory => f.write_str("out of memory"),
        }
    }
}

impl Error for CoreFault {}

impl From<AllocError> for CoreFault {
    ghost from_gives = { λ _ fault. fault ≡ NoMemory };

    fn from(_refused: AllocError) -> Self {
        CoreFault::NoMemory
    }
}
