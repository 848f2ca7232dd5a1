//! The shared words of the machine, by name.

/// A shared word, by name; the words of frames and of boxes are numbered through.
#[derive(Clone, Copy, Debug)]
pub enum Word {
    /// How many threads' numbers were drawn.
    Threads,
    /// The box of this number.
    Box(u64),
    /// The last number drawn.
    Clock,
    /// The lock of this number.
    Lock(u64),
    /// The entry of this page.
    Entry(u64),
    /// The touch of this page.
    Touch(u64),
    /// The frame word of this number.
    Cell(u64),
    /// Which thread has the turn.
    Turn,
    /// The durable number.
    Durable,
    /// The reproduced number.
    Reproduced,
}
