//! Why an image file is not open.

ghost use Rattle.dude_io.specs.declared.edge_fault.EdgeFault.TheVariants.{Failed as EdgeFailed, NoMemory};
ghost use Rattle.std.specs.Prelude.{◌≡◌};

use std::alloc::AllocError;
use std::io;

/// Why an image file is not open.
#[derive(Clone, Copy)]
pub enum EdgeFault {
    /// The file couldn't be opened, made or read, or is no plain file.
    Failed,
    /// There was no memory for the words, for the notes or for the name of a file that is being made.
    NoMemory,
}

impl From<io::Error> for EdgeFault {
    ghost from_gives = { λ _ fault. fault ≡ EdgeFailed };

    fn from(_: io::Error) -> Self {
        EdgeFault::Failed
    }
}

impl From<AllocError> for EdgeFault {
    ghost from_gives = { λ _ fault. fault ≡ NoMemory };

    fn from(_: AllocError) -> Self {
        EdgeFault::NoMemory
    }
}
