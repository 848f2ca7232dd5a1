//! The parts of a tag, word 0 of a cell.

/// What the kind of a cell counts in its tag; the rest is the number.
pub const KIND: u64 = 4_611_686_018_427_387_904;

/// The tag of a head, but for its number.
pub const HEAD_KIND: u64 = KIND;

/// The tag of a continuation, but for its number.
pub const CONTINUATION_KIND: u64 = 2 * KIND;
