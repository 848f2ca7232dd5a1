//! Why no transactions run.

/// Why no transactions run over a back.
#[derive(Clone, Copy, Debug, PartialEq, Eq)]
pub enum StmFault {
    /// The run, or the number of threads, is out of its limits, over a store of so many pages.
    Size { frames: u64, pages: u64 },
    /// Want of memory.
    NoMemory,
}
