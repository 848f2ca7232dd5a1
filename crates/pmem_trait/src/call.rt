//! The calls on a medium.

/// One call on a medium. Words and lines are counted from 0; a line is eight words.
#[derive(Clone, Copy, PartialEq, Eq)]
pub enum Call {
    /// A look at this word.
    Read(u64),
    /// A value for a word. A crash is sure to leave it, or a later one, only once the word's line was flushed after the put
    /// and a fence was made after that.
    Put { at: u64, value: u64 },
    /// Notes, for this line, the values that its words hold.
    Flush(u64),
    /// Makes the noted values durable.
    Fence,
    /// Tells the world that everything up to this number is durable.
    Tell(u64),
}
