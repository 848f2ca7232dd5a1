//! Why a read or a write was not made.

/// Why a read or a write was not made.
#[derive(Clone, Copy, PartialEq, Eq)]
pub enum Stop {
    /// The lock of the word was found as `seen`, which is not good for this transaction.
    Conflict { lock: u64, seen: u64 },
    /// The page of the word is in no frame.
    Out { page: u64 },
    /// The entry of the page changed to `seen` while the page was to be pinned.
    Busy { page: u64, seen: u64 },
    /// The write would be of a 25th different word.
    Wide,
    /// Want of memory.
    NoMemory,
}
