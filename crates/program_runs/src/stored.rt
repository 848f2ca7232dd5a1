//! Images that stand in files beside the program.

use std::{fs, io};

/// The words of a file, eight bytes each, the least first.
pub fn stored_image(rt: &HostRuntime, name: &str) -> io::Result<Vec<u64>> {
    let bytes = fs::read(rt, name)?;
    let mut words = Vec::new(rt.alloc());
    for word in bytes.as_chunks::<8>().0 {
        words.push(u64::from_le_bytes(*word))?;
    }
    Ok(words)
}
