//! What a worker passes between a transaction's last read and its commit.

/// What a worker passes between a transaction's last read and its commit. A test may hold a thread up there.
pub trait Gate {
    /// The transaction for this request has made its reads.
    fn pass(&self, file: u64, index: u64);
}
