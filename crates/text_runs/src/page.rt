//! What the program prints of the text that a command gave.

use std::alloc::{AllocError, Global};

/// A line for each line of a text, as `{:?}` shows it; equal ones in a row as one.
pub fn page_of(alloc: Global, text: &[u8]) -> Result<String, AllocError> {
    let mut lines = Vec::new(alloc);
    for line in text.split_inclusive(|byte| *byte == b'\n') {
        lines.push(str::from_utf8(line).unwrap_or("no UTF-8"))?;
    }
    let mut page = String::new(alloc);
    for run in lines.chunk_by(|line, next| line == next) {
        add_run(&mut page, run)?;
    }
    Ok(page)
}

/// Adds equal lines.
fn add_run(page: &mut String, run: &[&str]) -> Result<(), AllocError> {
    let times = run.len();
    match run.first() {
        Some(line) if times > 1 => writeln!(page, "{line:?}, {times} times"),
        Some(line) => writeln!(page, "{line:?}"),
        None => Ok(()),
    }
}

/// Appends a line of a word and a number.
pub fn push_count(word: &str, number: u64, out: &mut Vec<u8>) -> Result<(), AllocError> {
    let line = format!(in *out.allocator(); "{word} {number}\n")?;
    out.extend_from_slice(line.as_bytes())
}
