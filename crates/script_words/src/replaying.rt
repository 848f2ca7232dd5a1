//! An image, given by its words, is replayed.

ghost use Rattle.std.specs.Prelude.{◌<◌};

use crate::log::{count, damaged_line, head_of, last_number, word_at, write};
use crate::shape::Shape;
use std::alloc::{AllocError, Global};

/// What the replay of an image gives.
#[derive(Drop)]
pub enum Replay {
    /// The image is no image of a version that is read, or too short for its sizes.
    Unformatted,
    /// The mark is too great (line 1), or the log is damaged at this line.
    Damaged { line: u64 },
    /// The number that the image recovers to, and its home words then.
    Recovered { number: u64, home: Vec<u64> },
}

/// Replays an image, given by its words: the home is overwritten by the records that cover the numbers which follow one
/// another over the mark. Whether the home words stand for a database isn't looked at.
pub fn recover(alloc: Global, image: &[u64]) -> Result<Replay, AllocError> {
    let Some(shape) = Shape::of(image) else {
        return Ok(Replay::Unformatted);
    };
    let mark = word_at(image, 8);
    if mark >= 1 << 48 {
        return Ok(Replay::Damaged { line: 1 });
    }
    if let Some(line) = damaged_line(image, &shape, mark) {
        return Ok(Replay::Damaged { line });
    }
    let mut home = Vec::new(alloc);
    for at in 0..shape.home {
        home.push(word_at(image, shape.home_start() + at))?;
    }
    let mut number = mark;
    for _ in 0..shape.all_cells {
        let Some(head) = head_of(image, &shape, mark, number.saturating_add(1)) else {
            break;
        };
        apply(image, &shape, head, &mut home);
        number = last_number(image, &shape, head);
    }
    Ok(Replay::Recovered { number, home })
}

/// The number and the home that an image recovers to, where they are these.
pub fn recovers_to(
    alloc: Global,
    image: &[u64],
    number: u64,
    home: &[u64],
) -> Option<(u64, Vec<u64>)> {
    match recover(alloc, image) {
        Ok(
            Replay::Recovered {
                number: last,
                home: words,
            },
        ) => {
            if last == number && words.as_slice() == home {
                Some((last, words))
            } else {
                None
            }
        }
        _ => None,
    }
}

// Overwrites the home by the writes of a record.
fn apply(image: &[u64], shape: &Shape, head: u64, home: &mut [u64])
    requires { head < 65536 }
{
    for k in 0..count(image, shape, head).min(96) {
        let (at, value) = write(image, shape, head, k);
        if let Some(word) = home.get_mut(at as usize) {
            *word = value;
        }
    }
}
