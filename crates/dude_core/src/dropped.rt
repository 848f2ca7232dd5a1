//! What an event drops of the words read.

/// What an event drops of the words read.
#[derive(Clone, Copy, Debug, PartialEq, Eq)]
pub(crate) enum Dropped {
    /// None of them.
    Nothing,
    /// All of them.
    Everything,
    /// Those of a page.
    OfPage(u64),
}
