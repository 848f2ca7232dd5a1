//! One file in memory, by its name.

/// A file in memory.
#[derive(Drop)]
pub struct MemFile {
    pub name: String,
    pub bytes: Vec<u8>,
}
