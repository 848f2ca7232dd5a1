//! What a home word is filled with.

/// A home word of the page gets this value, which was read of it, in the frame.
#[derive(Clone, Copy)]
pub struct Filling {
    /// The page.
    pub page: u64,
    /// The frame of the page.
    pub frame: u64,
    /// The home word.
    pub at: u64,
    /// Its value.
    pub value: u64,
}
