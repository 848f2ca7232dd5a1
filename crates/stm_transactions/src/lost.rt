//! Why a commit of writes was not made.

/// Why a commit of writes was not made.
#[derive(Clone, Copy, Debug, PartialEq, Eq)]
pub enum Lost {
    /// The page of a written word is in no frame.
    Out { page: u64 },
    /// The entry of such a page changed to `seen` while the page was to be pinned.
    Busy { page: u64, seen: u64 },
    /// The lock of a read was found as `seen` after the draw, which is not good. The number is void.
    Conflict { lock: u64, seen: u64, number: u64 },
}
