//! Why a file has no text.

ghost use Rattle.std.specs.Prelude.{◌≡◌};

use pmem_trait::Failed;
use std::alloc::AllocError;

/// Why a file has no text.
#[derive(Clone, Copy)]
pub enum FileFault {
    /// A read failed, as one of a file that isn't there does.
    Failed,
    /// There was no memory for the text.
    NoMemory,
}

impl From<Failed> for FileFault {
    ghost use Rattle.dude_io.specs.declared.file_fault.FileFault.TheVariants as why;

    ghost from_gives = { λ _ fault. fault ≡ why.Failed };

    fn from(_: Failed) -> Self {
        FileFault::Failed
    }
}

impl From<AllocError> for FileFault {
    ghost use Rattle.dude_io.specs.declared.file_fault.FileFault.TheVariants as why;

    ghost from_gives = { λ _ fault. fault ≡ why.NoMemory };

    fn from(_: AllocError) -> Self {
        FileFault::NoMemory
    }
}
