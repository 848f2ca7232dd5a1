//! How large a request file may be.

/// The most bytes that a request file may have.
pub const MAX_BYTES: usize = 16_777_216;

/// The most records that a request file may have.
pub const MAX_RECORDS: u64 = 100_000;
