//! What images recover to, by the product and by the slow replay.

use image_recovery::{OpenFault, image_of};
use script_words::{Replay, recover};
use std::alloc::{AllocError, Global};

/// What a recovery or an opening gives: the number and the home words, or why not.
pub type Found = Result<(u64, Vec<u64>), OpenFault>;

/// The home word with the location of subscriber 1, where there are eight.
pub const LOCATION: usize = 22;

/// What an image recovers to.
pub fn recovered(alloc: Global, image: &[u64]) -> Found {
    let recovered = image_of(alloc, image)?;
    Ok((recovered.number, recovered.words))
}

/// A word of an image or a home, 0 behind its end.
pub fn word_at(words: &[u64], at: usize) -> u64 {
    if at < words.len() { words[at] } else { 0 }
}

/// The words of an image from the first home word on, which follows the rings that its header has.
fn home_of(image: &[u64]) -> &[u64] {
    let cells = word_at(image, 4).saturating_mul(word_at(image, 5));
    let start = cells.saturating_mul(8).saturating_add(16) as usize;
    &image[start.min(image.len())..]
}

/// The lines that say what was found of the image `before`, and whether the image `after` has it.
pub fn found_text(
    alloc: Global,
    before: &[u64],
    after: &[u64],
    found: &Found,
) -> Result<String, AllocError> {
    let (number, home) = match found {
        Ok((number, home)) => (number, home),
        Err(fault) => return format!(in alloc; "{fault}\n"),
    };
    let len = home.len();
    let location = word_at(home, LOCATION);
    let mut text = format!(in alloc;
        "number {number}, {len} home words, word 22 is {location}\nchanged"
    )?;
    add_changes(&mut text, home_of(before), home)?;
    let mark = word_at(after, 8);
    let is_there = home_of(after).starts_with(home);
    let whose = if is_there { "this" } else { "another" };
    text.push_str(&format!(in alloc; "\nmark {mark}, {whose} home in the image\n")?)?;
    Ok(text)
}

/// Adds which words of a home are others than before.
fn add_changes(text: &mut String, before: &[u64], after: &[u64]) -> Result<(), AllocError> {
    let alloc = *text.allocator();
    let mut is_same = true;
    for at in 0..after.len() {
        let value = word_at(after, at);
        if word_at(before, at) != value {
            is_same = false;
            text.push_str(&format!(in alloc; " {at}={value}")?)?;
        }
    }
    text.push_str(if is_same { " nothing" } else { "" })
}

/// Whether the slow replay of an image gives this.
pub fn is_replayed(alloc: Global, image: &[u64], wanted: &Found) -> Result<bool, AllocError> {
    Ok(match recover(alloc, image)? {
        Replay::Unformatted => *wanted == Err(OpenFault::Unformatted),
        Replay::Damaged { line } => *wanted == Err(OpenFault::Damaged { line }),
        Replay::Recovered { number, home } => *wanted == Ok((number, home)),
    })
}
