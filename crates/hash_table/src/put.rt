//! What became of the key of an insertion.

/// What became of the key of an insertion.
#[derive(Clone, Copy)]
pub enum Put {
    /// The key was there before, in this record.
    There(u64),
    /// The key was not there, and no record was free.
    Full,
    /// The key was not there, and is in this record now.
    Stored(u64),
}
