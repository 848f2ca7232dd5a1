//! What a follower did with a packet.

/// What a follower did with a packet.
#[derive(Clone, Copy, Debug, PartialEq, Eq)]
pub enum Taken {
    /// All its numbers were reached before.
    Old,
    /// It is no packet of the leader that was followed so far. Nothing was done.
    Strange,
    /// It was applied, and the kept ones that follow it.
    Applied {
        /// The number that is now reached.
        number: u64,
    },
    /// It is kept until those before it come.
    Kept,
    /// It isn't kept, for want of room.
    Dropped {
        /// How many are kept.
        kept: u64,
    },
}
