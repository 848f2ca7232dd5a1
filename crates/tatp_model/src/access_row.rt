//! Rows of the access table.

/// What an access row says: two numbers, three letters and five letters.
#[derive(Clone, Copy, PartialEq, Eq)]
pub struct AccessData {
    pub data1: u8,
    pub data2: u8,
    /// Letters from `A` to `Z`, as their ASCII codes.
    pub data3: [u8; 3],
    /// Letters from `A` to `Z`, as their ASCII codes.
    pub data4: [u8; 5],
}

/// An access row. Its key is `s_id` with `ai_type`.
#[derive(Clone, Copy)]
pub struct AccessRow {
    /// The subscriber that it belongs to.
    pub s_id: u64,
    /// From 1 to 4.
    pub ai_type: u64,
    pub info: AccessData,
}
