//! Words of scripts: remarks, numbers, pairs and lists of numbers.

use std::alloc::{AllocError, Global};

/// Whether a line is printed as it stands: an empty one, or one that begins with `#`.
pub fn is_remark(line: &str) -> bool {
    line.is_empty() || line.starts_with("#")
}

/// The words of a line, between which spaces stand.
pub fn words_of<'a>(alloc: Global, line: &'a str) -> Result<Vec<&'a str>, AllocError> {
    let mut words = Vec::new(alloc);
    for word in line.split_whitespace() {
        words.push(word)?;
    }
    Ok(words)
}

/// A number: decimal digits, `0x` and digits of base sixteen, or `2^` and a power; or sums and differences of such without
/// spaces, as `2^62+1`, taken from left to right. `None` where the word is no number below 2^64.
pub fn number_of(word: &str) -> Option<u64> {
    let mut sum = 0_u128;
    for part in word.split('+') {
        let mut terms = part.split('-');
        sum = sum.checked_add(term_of(terms.next()?)?)?;
        for term in terms {
            sum = sum.checked_sub(term_of(term)?)?;
        }
    }
    u64::try_from(sum).ok()
}

/// A number without signs.
fn term_of(word: &str) -> Option<u128> {
    if let Some(power) = word.strip_prefix("2^") {
        return power_of(exponent_of(power)?);
    }
    let number = match word.strip_prefix("0x") {
        Some(digits) => hexadecimal_of(digits),
        None => word.parse::<u64>().ok(),
    };
    Some(u128::from(number?))
}

/// Two to this power, which is at most 64.
fn power_of(power: u32) -> Option<u128> {
    if power <= 64 {
        1_u128.checked_shl(power)
    } else {
        None
    }
}

/// The power that these digits are.
fn exponent_of(digits: &str) -> Option<u32> {
    digits.parse::<u32>().ok()
}

/// The number that these digits of base sixteen are.
fn hexadecimal_of(digits: &str) -> Option<u64> {
    u64::from_str_radix(digits, 16).ok()
}

/// The number at a place, and 0 where there is none.
pub fn number_at(numbers: &[u64], place: usize) -> u64 {
    numbers.get(place).copied().unwrap_or(0)
}

/// Two numbers with `=` between them, as a word and its value.
pub fn pair_of(word: &str) -> Option<(u64, u64)> {
    let (first, second) = word.split_once('=')?;
    Some((number_of(first)?, number_of(second)?))
}

/// The numbers that these words are; `None` where one of them is none.
pub fn numbers_of(alloc: Global, words: &[&str]) -> Result<Option<Vec<u64>>, AllocError> {
    let mut numbers = Vec::new(alloc);
    for word in words {
        let Some(number) = number_of(word) else {
            return Ok(None);
        };
        numbers.push(number)?;
    }
    Ok(Some(numbers))
}

/// The pairs that these words are; `None` where one of them is none.
pub fn pairs_of(alloc: Global, words: &[&str]) -> Result<Option<Vec<(u64, u64)>>, AllocError> {
    let mut pairs = Vec::new(alloc);
    for word in words {
        let Some(pair) = pair_of(word) else {
            return Ok(None);
        };
        pairs.push(pair)?;
    }
    Ok(Some(pairs))
}
