//! Why a page wasn't brought into a frame.

/// Why a page wasn't brought into a frame.
#[derive(Clone, Copy)]
pub enum FetchFault {
    /// Another thread has the turn; the turn word was this.
    Held { seen: u64 },
    /// A call on the medium failed in this turn.
    Device,
    /// One failed in an earlier turn.
    Dead,
    /// A number that wrote to the page isn't in the home yet.
    Behind { touch: u64, reproduced: u64 },
    /// No frame is free, and the page of each is pinned. This page was the last one found so.
    AllPinned { page: u64, seen: u64 },
}
