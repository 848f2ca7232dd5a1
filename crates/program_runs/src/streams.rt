//! What a stream printed, as a run prints it.

use crate::setup::add_line;
use std::alloc::{AllocError, Global};

/// The lines of a stream of so many files, those of each file one behind another and without the number of their file. Lines that
/// are of none of the files, as the last one, stand behind them.
pub fn in_files(alloc: Global, printed: &[u8], count: u64) -> Result<Vec<u8>, AllocError> {
    let text = str::from_utf8(printed).unwrap_or("(no text)");
    let mut lines = Vec::new(alloc);
    for file in 1..=count {
        let front = format!(in alloc; "{file} ")?;
        for line in text.lines() {
            if let Some(behind) = line.strip_prefix(front.as_str()) {
                add_line(&mut lines, behind.as_bytes())?;
            }
        }
    }
    for line in text.lines() {
        if !is_of_file(alloc, line, count)? {
            add_line(&mut lines, line.as_bytes())?;
        }
    }
    Ok(lines)
}

/// Whether a line is of one of so many files.
fn is_of_file(alloc: Global, line: &str, count: u64) -> Result<bool, AllocError> {
    for file in 1..=count {
        let front = format!(in alloc; "{file} ")?;
        if line.starts_with(front.as_str()) {
            return Ok(true);
        }
    }
    Ok(false)
}
