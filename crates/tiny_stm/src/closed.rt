//! What running transactions leave.

use crate::posted::Posted;
use back_store::Back;
use pmem_trait::Medium;

/// What running transactions leave.
#[derive(Drop)]
pub struct Closed<M: Medium> {
    /// The back, in which records may wait.
    pub back: Back<M>,
    /// The records that still stood in boxes, in rising order of number.
    pub rest: Vec<Posted>,
    /// The vector of home words that was handed in. Those of pages that stood in frames are the
    /// words of the frames.
    pub words: Vec<u64>,
    /// The last number drawn.
    pub number: u64,
}
