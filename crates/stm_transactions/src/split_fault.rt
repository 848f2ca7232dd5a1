//! Why no pass was split off.

/// Why no pass was split off.
#[derive(Clone, Copy, Debug, PartialEq, Eq)]
pub enum SplitFault {
    /// The pass has no split left, of a table for so many threads.
    All { threads: u64 },
    /// Want of memory.
    NoMemory,
}
