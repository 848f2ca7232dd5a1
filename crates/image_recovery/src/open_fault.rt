//! Why an image can't be opened.

ghost use Rattle.image_recovery.specs.Faults.{fault_of_scan, fault_of_check};
ghost use Rattle.image_recovery.specs.Texts.{fault_words};
ghost use Rattle.image_recovery.specs.declared.open_fault.OpenFault.TheVariants.{Device, NoMemory};
ghost use Rattle.std.specs.Prelude.{Some, ◌≡◌};

use log_ring::ScanFault;
use pmem_trait::Failed;
use std::alloc::AllocError;
use std::error::Error;
use std::fmt;
use tatp_check::CheckFault;

/// Why an image can't be opened.
#[derive(Clone, Copy, Debug, PartialEq, Eq)]
pub enum OpenFault {
    /// There is no image of a version that is read, or it is cut off.
    Unformatted,
    /// The mark is too great, at line 1, or the log is damaged at this line.
    Damaged { line: u64 },
    /// The home stands for no database; this home word is the first wrong one in the order of checking.
    NotDb { word: u64 },
    /// A call on the medium failed.
    Device,
    /// The image needs more memory than there is.
    NoMemory,
}

impl fmt::Display for OpenFault {
    ghost output = { λ fault. Some (fault_words fault) };

    fn fmt<W: fmt::Write>(&self, f: &mut fmt::Formatter<W>) -> fmt::Result {
        match self {
            OpenFault::Unformatted => f.write_str("there is no image"),
            OpenFault::Damaged { line } => write!(f, "the image is damaged at line {line}"),
            OpenFault::NotDb { word } => write!(f, "home word {word} makes no database"),
            OpenFault::Device => f.write_str("a call on the medium failed"),
            OpenFault::NoMemory => f.write_str("out of memory"),
        }
    }
}

impl Error for OpenFault {}

impl From<ScanFault> for OpenFault {
    ghost from_gives = { λ fault own. own ≡ fault_of_scan fault };

    fn from(fault: ScanFault) -> Self {
        match fault {
            ScanFault::Damaged { line } => OpenFault::Damaged { line },
            ScanFault::Device => OpenFault::Device,
            ScanFault::NoMemory => OpenFault::NoMemory,
        }
    }
}

impl From<Failed> for OpenFault {
    ghost from_gives = { λ _ fault. fault ≡ Device };

    fn from(_failed: Failed) -> Self {
        OpenFault::Device
    }
}

impl From<CheckFault> for OpenFault {
    ghost from_gives = { λ fault own. own ≡ fault_of_check fault };

    fn from(fault: CheckFault) -> Self {
        match fault {
            CheckFault::NoMemory => OpenFault::NoMemory,
            CheckFault::NotDb { word } => OpenFault::NotDb { word },
        }
    }
}

impl From<AllocError> for OpenFault {
    ghost from_gives = { λ _ fault. fault ≡ NoMemory };

    fn from(_refused: AllocError) -> Self {
        OpenFault::NoMemory
    }
}
