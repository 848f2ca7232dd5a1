//! The lock that keeps other processes off a file (trusted).

use std::fs::File;
use std::io;

/// A file that can be locked.
pub trait Lock {
    /// Takes the system's advisory lock on the file, which lasts until each handle of this opening is closed. It is an
    /// error where another opening holds it, or where the file system has none.
    fn try_lock(&self) -> io::Result<()>;
}

impl Lock for File {
    fn try_lock(&self) -> io::Result<()> {
        Ok(File::try_lock(self)?)
    }
}
