//! Rows of the facility table.

/// A special facility. Its key is `s_id` with `sf_type`.
#[derive(Clone, Copy)]
pub struct FacRow {
    /// The subscriber that it belongs to.
    pub s_id: u64,
    /// From 1 to 4.
    pub sf_type: u64,
    /// 1 where it is active, else 0.
    pub is_active: u8,
    pub error_cntrl: u8,
    pub data_a: u8,
    /// Letters from `A` to `Z`, as their ASCII codes.
    pub data_b: [u8; 5],
}
