//! Why a request was not served.

/// Why a request was not served.
#[derive(Clone, Copy)]
pub enum Unserved {
    /// The pass drew 64 numbers in vain, or was refused a million times.
    Refused,
    /// The back met a fault.
    Device,
    NoMemory,
}
