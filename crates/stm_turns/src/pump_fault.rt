//! Why a turn did nothing, or not all.

/// Why a turn did nothing, or not all.
#[derive(Clone, Copy)]
pub enum PumpFault {
    /// Another thread has the turn; the turn word was this.
    Held { seen: u64 },
    /// A call on the medium failed in this turn.
    Device,
    /// One failed in an earlier turn.
    Dead,
}
