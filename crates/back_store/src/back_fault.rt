//! Why a back does not do what it is asked.

/// Why a back didn't do what it was asked.
#[derive(Clone, Copy, Debug, PartialEq, Eq)]
pub enum BackFault {
    /// The records that wait in the ring take `used` cells, and the new one needs `need`: together more than there are.
    /// Nothing was done.
    RingFull { used: u64, need: u64 },
    /// A call on the medium failed. The back is dead from then on.
    Device,
    /// The back was dead. Nothing was done.
    Dead,
}
