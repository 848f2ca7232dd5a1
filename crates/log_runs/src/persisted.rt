//! The numbers of a bundle that was persisted.

/// The numbers of a bundle that was persisted, and its ring.
#[derive(Clone, Copy)]
pub struct Persisted {
    pub ring: u64,
    pub first: u64,
    pub last: u64,
}
