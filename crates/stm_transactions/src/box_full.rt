//! Why a transaction didn't begin.

/// The next box of the pass held the record of the number `seen`.
#[derive(Clone, Copy, Debug, PartialEq, Eq)]
pub struct BoxFull {
    pub seen: u64,
}
