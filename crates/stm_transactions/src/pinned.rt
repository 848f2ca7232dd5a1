//! A page that a transaction pins.

/// A page that a transaction pins, and the frame that it is in.
#[derive(Clone, Copy, Debug, PartialEq, Eq)]
pub struct Pinned {
    pub page: u64,
    pub frame: u64,
}
