//! The images and files that the lines of a script make.

use crate::acts::command_of;
use crate::outcome::{Outcome, crash_at};
use crate::packets::packet_file;
use crate::scene::{Scene, Settings};
use dude_io::MemFile;
use pmem_trait::{Call, Medium};
use script_words::{number_of, numbers_of, pair_of, pairs_of};
use std::alloc::{AllocError, Global};
use std::thread::Threads;

/// The image that a line makes of the one in memory, or of what the last command left; `None` where it makes none.
pub fn next_image<R: Threads + Sync>(
    threads: &R,
    alloc: Global,
    image: &[u64],
    outcome: &Outcome,
    first: &str,
    rest: &[&str],
) -> Result<Option<Vec<u64>>, AllocError> {
    match first {
        "words" => changed(alloc, image, rest),
        "made" => made_image(threads, alloc, rest),
        "take" => taken(alloc, outcome, rest),
        "keep" => Ok(Some(outcome.medium.content().to_vec(alloc)?)),
        _ => resized(alloc, image, first, rest),
    }
}

/// An image with these words in place of its own; `None` where it has no such word.
pub fn changed(
    alloc: Global,
    image: &[u64],
    pairs: &[&str],
) -> Result<Option<Vec<u64>>, AllocError> {
    let Some(pairs) = pairs_of(alloc, pairs)? else {
        return Ok(None);
    };
    let mut image = image.to_vec(alloc)?;
    for (at, value) in &pairs {
        match image.get_mut(*at as usize) {
            Some(word) => *word = *value,
            None => return Ok(None),
        }
    }
    Ok(Some(image))
}

/// `made COUNT COMMAND`: the image that the command makes of so many words of 0.
fn made_image<R: Threads + Sync>(
    threads: &R,
    alloc: Global,
    rest: &[&str],
) -> Result<Option<Vec<u64>>, AllocError> {
    let [count, command @ ..] = rest else {
        return Ok(None);
    };
    let Some(count) = number_of(count) else {
        return Ok(None);
    };
    let image = vec![in alloc; 0; count as usize]?;
    let mut settings = Settings::new();
    settings.budget = 1_000_000;
    let scene = Scene {
        image: &image,
        files: &[],
        settings,
    };
    let left = command_of(threads, alloc, &scene, command)?;
    if left.answer.as_str() == "status 0\n" {
        Ok(Some(left.medium.content().to_vec(alloc)?))
    } else {
        Ok(None)
    }
}

/// `take settled` and `take later`: the image that a crash leaves now. `take settled AT=VALUE STEPS`: the one so many calls
/// on from the moment before this value is put.
fn taken(alloc: Global, outcome: &Outcome, rest: &[&str]) -> Result<Option<Vec<u64>>, AllocError> {
    let [picks, place @ ..] = rest else {
        return Ok(None);
    };
    let Some(moment) = moment_of(outcome, place) else {
        return Ok(None);
    };
    let image = crash_at(alloc, &outcome.medium, moment, *picks == "later")?;
    Ok(Some(image))
}

/// The moment that these words name; now where there are none.
fn moment_of(outcome: &Outcome, words: &[&str]) -> Option<u64> {
    let [put, steps] = words else {
        return Some(outcome.medium.now());
    };
    let (at, value) = pair_of(put)?;
    let calls = outcome.calls_to(Call::Put { at, value })?;
    calls.checked_add(number_of(steps)?)?.checked_sub(1)
}

/// `image COUNT VALUE`, `more COUNT VALUE` and `cut COUNT`: so many words, so many more, and only so many.
fn resized(
    alloc: Global,
    image: &[u64],
    first: &str,
    rest: &[&str],
) -> Result<Option<Vec<u64>>, AllocError> {
    let Some(numbers) = numbers_of(alloc, rest)? else {
        return Ok(None);
    };
    let mut image = image.to_vec(alloc)?;
    match numbers.as_slice() {
        [count] if first == "cut" => image.truncate(*count as usize),
        [count, value] if first == "image" => image = vec![in alloc; *value; *count as usize]?,
        [count, value] if first == "more" => {
            let len = image.len().saturating_add(*count as usize);
            image.resize(len, *value)?;
        }
        _ => return Ok(None),
    }
    Ok(Some(image))
}

/// `file NAME`: a file, whose lines follow. `file NAME COUNT LINE ..`: one that has these lines so many times, one behind the
/// other, with how often they stand there in the place of a `*`; empty lines where none is given, and lines of one byte where
/// it is the number of a byte.
pub fn next_file(alloc: Global, first: &str, rest: &[&str]) -> Result<Option<MemFile>, AllocError> {
    if first == "packets" {
        return packet_file(alloc, rest);
    }
    let [name, behind @ ..] = rest else {
        return Ok(None);
    };
    let count = match behind {
        [] => Some(0),
        [count, ..] => number_of(count),
    };
    let Some(count) = count else {
        return Ok(None);
    };
    if first != "file" {
        return Ok(None);
    }
    let mut file = MemFile {
        name: String::from_str(alloc, name)?,
        bytes: Vec::new(alloc),
    };
    for number in 1..=count {
        if behind.len() == 1 {
            add_line(&mut file.bytes, b"")?;
        }
        for line in behind.iter().skip(1) {
            add_given(&mut file.bytes, line, number)?;
        }
    }
    Ok(Some(file))
}

/// Adds a given line: one byte where it is the number of a byte, else with this number in the place of a `*`.
fn add_given(bytes: &mut Vec<u8>, line: &str, number: u64) -> Result<(), AllocError> {
    match number_of(line) {
        Some(byte) => add_line(bytes, &[byte.min(255) as u8]),
        None => add_numbered(bytes, line, number),
    }
}

/// Adds a line with this number in the place of a `*`.
fn add_numbered(bytes: &mut Vec<u8>, line: &str, number: u64) -> Result<(), AllocError> {
    let alloc = *bytes.allocator();
    match line.split_once('*') {
        None => add_line(bytes, line.as_bytes()),
        Some((front, behind)) => {
            let line = format!(in alloc; "{front}{number}{behind}")?;
            add_line(bytes, line.as_bytes())
        }
    }
}

/// Adds a line and its end.
pub fn add_line(bytes: &mut Vec<u8>, line: &[u8]) -> Result<(), AllocError> {
    bytes.extend_from_slice(line)?;
    bytes.push(b'\n')?;
    Ok(())
}
