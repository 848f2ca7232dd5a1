//! A lock that isn't good.

/// A lock whose word isn't good for a transaction, and the word.
#[derive(Clone, Copy, Debug, PartialEq, Eq)]
pub struct BadLock {
    pub lock: u64,
    pub seen: u64,
}
