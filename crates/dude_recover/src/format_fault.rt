//! Why no image was made.

ghost use Rattle.dude_recover.specs.Causes.{fault_of_population};
ghost use Rattle.dude_recover.specs.Texts.{fault_words};
ghost use Rattle.dude_recover.specs.declared.format_fault.FormatFault.TheVariants.{Size, Device};
ghost use Rattle.std.specs.Prelude.{Some, ◌≡◌};

use dude_base::field::Field;
use dude_base::size_fault::SizeFault;
use pmem_trait::Failed;
use std::error::Error;
use std::fmt;
use tatp_rows::PopFault;

/// Why no image was made.
#[derive(Clone, Copy, Debug, PartialEq, Eq)]
pub enum FormatFault {
    /// This field is the first one out of its limits.
    Size { field: Field },
    /// The medium has fewer words than the image needs.
    Small { has: u64, needs: u64 },
    /// The population has more call rows than there may be.
    TooFew { rows: u64, calls: u64 },
    /// A call on the medium failed, and it holds some of the new image.
    Device,
    /// There was no memory for the home.
    NoMemory,
}

impl fmt::Display for FormatFault {
    ghost output = { λ fault. Some (fault_words fault) };

    fn fmt<W: fmt::Write>(&self, f: &mut fmt::Formatter<W>) -> fmt::Result {
        match self {
            FormatFault::Size { field } => SizeFault { field: *field }.fmt(f),
            FormatFault::Small { has, needs } => {
                write!(f, "the medium has {has} words, the image needs {needs}")
            }
            FormatFault::TooFew { rows, calls } => {
                write!(f, "there are {rows} call rows, and room for {calls}")
            }
            FormatFault::Device => f.write_str("a call on the medium failed"),
            FormatFault::NoMemory => f.write_str("out of memory"),
        }
    }
}

impl Error for FormatFault {}

impl From<SizeFault> for FormatFault {
    ghost from_gives = { λ fault own. own ≡ Size fault.field };

    fn from(fault: SizeFault) -> Self {
        FormatFault::Size { field: fault.field }
    }
}

impl From<PopFault> for FormatFault {
    ghost from_gives = { λ fault own. own ≡ fault_of_population fault };

    fn from(fault: PopFault) -> Self {
        match fault {
            PopFault::TooFew { rows, calls } => FormatFault::TooFew { rows, calls },
            PopFault::NoMemory => FormatFault::NoMemory,
        }
    }
}

impl From<Failed> for FormatFault {
    ghost from_gives = { λ _ fault. fault ≡ Device };

    fn from(_failed: Failed) -> Self {
        FormatFault::Device
    }
}
