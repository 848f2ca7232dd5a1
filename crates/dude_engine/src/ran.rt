//! What became of a run.

use tatp_model::Done;

/// How a run of requests ended.
#[derive(Clone, Copy, Debug, PartialEq, Eq)]
pub enum RanEnd {
    /// All requests are done, durable, told and reproduced.
    Whole,
    /// A call on the medium failed.
    Device,
    /// There was no memory.
    NoMemory,
}

/// What became of a run.
#[derive(Drop)]
pub struct Ran<M> {
    /// The requests done, in order of file and index. At `Device` and `NoMemory` those that wrote last may be in no record on
    /// the medium: at most the 256 of an open bundle and, at `Device`, the one that it didn't take.
    pub done: Vec<Done>,
    pub medium: M,
    pub end: RanEnd,
    /// The last number told, or the opening number where none was.
    pub last: u64,
}
