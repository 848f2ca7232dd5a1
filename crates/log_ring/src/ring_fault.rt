//! Why a record is not appended to its ring.

/// Why a record wasn't appended.
#[derive(Clone, Copy, Debug, PartialEq, Eq)]
pub enum RingFault {
    /// The records in the ring take `used` cells, and the new one needs `need`: together more than there are.
    Full { used: u64, need: u64 },
    /// A call on the medium failed. The record isn't in the ring, but a crash may leave it.
    Device,
}
