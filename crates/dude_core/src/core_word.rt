//! The words of a core, by name.

/// A word of the core.
#[derive(Clone, Copy)]
pub enum CoreWord {
    /// How many threads' numbers were drawn.
    Threads,
    /// The last number drawn.
    Clock,
    /// 0, or `t + 1` of the thread `t` that has the turn.
    Turn,
    Durable,
    Reproduced,
    /// Twice a version, or `2 * t + 1` of its owner.
    Lock(u64),
    /// Of a page: 0 where it is absent, else its frame and its pins.
    Entry(u64),
    /// Of a page: at least each number that wrote to it.
    Touch(u64),
    /// A word of the frames, which are numbered through.
    FrameWord(u64),
    /// 0, or the number of the record in the box.
    BoxWord { thread: u64, place: u64 },
}
