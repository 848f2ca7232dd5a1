//! Texts and numbers of a script.

use crate::stop::Stop;
use script_words::number_of;
use std::alloc::{AllocError, Global};

/// The numbers among these words, which stand between others that say what they count.
pub fn numbers_among(alloc: Global, words: &[&str]) -> Result<Vec<u64>, AllocError> {
    let mut numbers = Vec::new(alloc);
    for word in words {
        if let Some(number) = number_of(word) {
            numbers.push(number)?;
        }
    }
    Ok(numbers)
}

/// The bytes that these words say, joined. Behind a number a word stands so many times.
pub fn text_of(alloc: Global, words: &[&str]) -> Result<Vec<u8>, Stop> {
    let mut text = Vec::new(alloc);
    let mut times = 1;
    for word in words {
        if let Some(number) = number_of(word) {
            times = number;
        } else {
            let piece = unquoted(alloc, word.as_bytes())?;
            text.extend_from_slice(&piece.repeat(alloc, times as usize)?)?;
            times = 1;
        }
    }
    Ok(text)
}

/// The bytes of a word, without the quotes round it.
pub fn unquoted(alloc: Global, word: &[u8]) -> Result<Vec<u8>, Stop> {
    let inner = match word {
        [b'"', inner @ .., b'"'] => inner,
        [b'"', ..] => return Err(Stop::NoCommand),
        bare => bare,
    };
    let mut text = Vec::new(alloc);
    let mut is_escaped = false;
    for byte in inner {
        if is_escaped {
            let Some(meant) = meant_by(*byte) else {
                return Err(Stop::NoCommand);
            };
            text.extend_from_slice(meant)?;
            is_escaped = false;
        } else if *byte == b'\\' {
            is_escaped = true;
        } else {
            text.push(*byte)?;
        }
    }
    if is_escaped {
        Err(Stop::NoCommand)
    } else {
        Ok(text)
    }
}

/// The bytes that a letter behind a backslash means.
fn meant_by(letter: u8) -> Option<&'static [u8]> {
    Some(match letter {
        b'n' => b"\n",
        b'r' => b"\r",
        b'"' => b"\"",
        b's' => b" ",
        b'0' => b"\0",
        b'f' => b"\xff",
        b'm' => b"\xef\xbb\xbf",
        _ => return None,
    })
}
