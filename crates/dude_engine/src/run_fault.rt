//! Why a run ends before its requests do.

ghost use Rattle.dude_engine.specs.declared.run_fault.RunFault.TheVariants.{Device, NoMemory};
ghost use Rattle.std.specs.Prelude.{◌≡◌};

use pmem_trait::Failed;
use std::alloc::AllocError;

/// Why a run ends before its requests do.
#[derive(Clone, Copy, Debug, PartialEq, Eq)]
pub enum RunFault {
    /// A call on the medium failed.
    Device,
    /// There was no memory.
    NoMemory,
}

impl From<Failed> for RunFault {
    ghost from_gives = { λ _ fault. fault ≡ Device };

    fn from(_failed: Failed) -> RunFault {
        RunFault::Device
    }
}

impl From<AllocError> for RunFault {
    ghost from_gives = { λ _ fault. fault ≡ NoMemory };

    fn from(_error: AllocError) -> RunFault {
        RunFault::NoMemory
    }
}
