//! The answer of a call on something outside that failed.

/// A call on something outside, as a medium, a file or a sink, that failed. That thing's count of faults has risen
/// then, or stands at its last value, 2^64 - 1.
#[derive(Clone, Copy)]
pub struct Failed;
