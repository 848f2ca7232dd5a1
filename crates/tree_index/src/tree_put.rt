//! What became of the key of an insertion into a tree.

/// What became of the key of an insertion into a tree.
#[derive(Clone, Copy, Debug, PartialEq, Eq)]
pub enum TreePut {
    /// The key was there before.
    There,
    /// The key was not there, and no leaf was free or, with a key there, no inner record.
    Full,
    /// The key was not there, and is now.
    Stored,
}
