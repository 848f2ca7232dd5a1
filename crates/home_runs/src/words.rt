//! The words of an array.

use crate::page::Page;
use std::alloc::{AllocError, Global};

/// A copy of the words, changed at some places: each change is a place and its word.
pub fn changed(alloc: Global, words: &[u64], changes: &[u64]) -> Result<Vec<u64>, AllocError> {
    let mut other = words.to_vec(alloc)?;
    for change in changes.chunks(2) {
        if let [place, word] = *change
            && place < other.len() as u64
        {
            other[place as usize] = word;
        }
    }
    Ok(other)
}

/// Prints the words at these places, or all words, eight to a line, where there are none.
pub fn say_words(words: &[u64], places: &[u64], page: &mut Page) {
    if places.is_empty() {
        return say_all(words, page);
    }
    page.put(b"words");
    for place in places {
        page.put_pair(*place, words.get(*place as usize).copied().unwrap_or(0));
    }
    page.line("");
}

/// Prints all words, eight to a line.
fn say_all(words: &[u64], page: &mut Page) {
    for (place, word) in words.iter().enumerate() {
        if place % 8 == 0 {
            page.put(if place == 0 { b"words" } else { b"\nwords" });
        }
        page.put(b" ");
        page.put_word(*word);
    }
    page.line("");
}
