//! Why there is no image of a moment.

ghost use Rattle.pmem_fake.specs.declared.image_fault.ImageFault.TheVariants.{NoMemory};
ghost use Rattle.std.specs.Prelude.{◌≡◌};

use std::alloc::AllocError;
use std::fmt;

/// Why there is no image.
#[derive(Clone, Copy)]
pub enum ImageFault {
    /// The moment hasn't come yet.
    Later { moment: u64, now: u64 },
    /// There is no memory for the image.
    NoMemory,
}

impl fmt::Display for ImageFault {
    fn fmt<W: fmt::Write>(&self, f: &mut fmt::Formatter<W>) -> fmt::Result {
        match self {
            ImageFault::Later { moment, now } => write!(f, "moment {moment} is later than {now}"),
            ImageFault::NoMemory => write!(f, "out of memory"),
        }
    }
}

impl From<AllocError> for ImageFault {
    ghost from_gives = { λ _ fault. fault ≡ NoMemory };

    fn from(_: AllocError) -> ImageFault {
        ImageFault::NoMemory
    }
}
