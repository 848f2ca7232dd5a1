//! Why a follower doesn't take a packet.

/// Why a follower doesn't take a packet.
#[derive(Clone, Copy, Debug, PartialEq, Eq)]
pub enum FollowFault {
    /// A call on the medium failed. The follower is dead from then on.
    Device,
    /// The follower was dead. Nothing was done.
    Dead,
}
