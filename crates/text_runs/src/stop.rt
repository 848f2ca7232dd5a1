//! Why a command was not carried out.

use std::alloc::{AllocError, AllocFailed};

/// Why a command was not carried out.
#[derive(Drop)]
pub enum Stop {
    /// The line is no command.
    NoCommand,
    /// There was no memory.
    NoMemory,
}

impl From<AllocError> for Stop {
    fn from(_: AllocError) -> Stop {
        Stop::NoMemory
    }
}

impl<T: Drop> From<AllocFailed<T>> for Stop {
    fn from(_: AllocFailed<T>) -> Stop {
        Stop::NoMemory
    }
}
