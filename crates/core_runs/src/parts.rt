//! The parts of commands: words, and the numbers among them.

use script_words::number_of;
use std::alloc::{AllocError, Global};

/// The first word of a text, and what stands behind it.
pub fn cut(text: &str) -> (&str, &str) {
    match text.split_once(' ') {
        Some(parts) => parts,
        None => (text, ""),
    }
}

/// The numbers among the words of a text, in their order.
pub fn numbers_in(alloc: Global, text: &str) -> Result<Vec<u64>, AllocError> {
    let mut numbers = Vec::new(alloc);
    for word in text.split_whitespace() {
        if let Some(number) = number_of(word) {
            numbers.push(number)?;
        }
    }
    Ok(numbers)
}
