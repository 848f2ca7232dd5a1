//! What reading a file up to a limit of bytes found.

/// What reading a file up to a limit of bytes found.
#[derive(Drop)]
pub enum FileText {
    /// All bytes of the file, no more than the limit.
    Whole(Vec<u8>),
    /// The file has more bytes than the limit.
    TooLong,
}
