//! Why a scan does not give what the rings hold.

ghost use Rattle.std.specs.Prelude.{◌≡◌};

use pmem_trait::Failed;
use std::alloc::AllocError;

/// Why the records of the rings weren't given.
#[derive(Clone, Copy, Debug, PartialEq, Eq)]
pub enum ScanFault {
    /// The log is damaged at this line of the image.
    Damaged { line: u64 },
    /// A call on the medium failed.
    Device,
    /// The records need more memory than there is.
    NoMemory,
}

impl From<Failed> for ScanFault {
    ghost use Rattle.log_ring.specs.declared.scan_fault.ScanFault.TheVariants.{Device};

    ghost from_gives = { λ _ fault. fault ≡ Device };

    fn from(_failed: Failed) -> Self {
        ScanFault::Device
    }
}

impl From<AllocError> for ScanFault {
    ghost use Rattle.log_ring.specs.declared.scan_fault.ScanFault.TheVariants.{NoMemory};

    ghost from_gives = { λ _ fault. fault ≡ NoMemory };

    fn from(_refused: AllocError) -> Self {
        ScanFault::NoMemory
    }
}
