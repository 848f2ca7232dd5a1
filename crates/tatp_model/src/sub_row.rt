//! Rows of the subscriber table.

/// A subscriber. Its key is `s_id`, and no two subscribers have one `sub_nbr`.
#[derive(Clone, Copy, PartialEq, Eq)]
pub struct SubRow {
    /// From 1 to 4,294,967,295.
    pub s_id: u64,
    /// The phone number, below 10^15.
    pub sub_nbr: u64,
    /// `bit_1` to `bit_10`, each 0 or 1.
    pub bits: [u8; 10],
    /// `hex_1` to `hex_10`, each below 16.
    pub hexes: [u8; 10],
    /// `byte2_1` to `byte2_10`.
    pub bytes: [u8; 10],
    /// The switching centre's location, below 2^32.
    pub msc: u64,
    /// The visitor register's location, below 2^32.
    pub vlr: u64,
}
