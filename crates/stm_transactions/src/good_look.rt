//! A look at a lock that is good.

/// The word of a lock that was looked at, and the snapshot for which it is good.
#[derive(Clone, Copy, Debug, PartialEq, Eq)]
pub struct GoodLook {
    pub seen: u64,
    pub snapshot: u64,
}
