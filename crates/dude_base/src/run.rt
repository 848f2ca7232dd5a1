//! What a run of threads has: frames, locks and boxes.

/// How the threads of a run share what they have.
#[derive(Clone, Copy)]
pub struct Run {
    /// Pages that are in memory at a time: from `MIN_FRAMES` to the pages of the image, and exactly
    /// these where they are fewer.
    pub frames: u64,
    /// Locks, from 1 to `MAX_LOCKS`.
    pub locks: u64,
    /// Boxes of each thread, from 1 to `MAX_BOXES`.
    pub boxes: u64,
}
