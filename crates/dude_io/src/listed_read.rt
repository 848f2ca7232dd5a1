//! One read that was made of a file in memory.

/// A read that was made: of the file of this name, from this byte on, and whether it failed.
#[derive(Drop)]
pub struct ListedRead {
    pub name: String,
    pub at: u64,
    pub failed: bool,
}
