//! Lines of a script as what passes do.

use crate::moves::{Access, Act, Move};
use script_words::{number_of, pair_of, words_of};
use std::alloc::{AllocError, Global};

/// The most words that one range reads.
const MOST: u64 = 10_000;

/// What a line has passes do; nothing where it is no such line.
pub fn move_of(alloc: Global, line: &str) -> Result<Option<Move>, AllocError> {
    let mut parts = line.split(" / ");
    match (parts.next(), parts.next(), parts.next()) {
        (Some(first), None, None) => one_of(alloc, first),
        (Some(before), Some(between), Some(after)) => {
            match (one_of(alloc, before)?, one_of(alloc, between)?) {
                (
                    Some(
                        Move::One {
                            who,
                            act: Act::Transact(before),
                        },
                    ),
                    Some(Move::One { who: other, act }),
                ) => {
                    let words = words_of(alloc, after)?;
                    Ok(Some(Move::Around {
                        who,
                        before,
                        other,
                        act,
                        after: accesses_of(alloc, &words)?,
                    }))
                }
                _ => Ok(None),
            }
        }
        _ => Ok(None),
    }
}

/// What a line without another one between has passes do.
fn one_of(alloc: Global, line: &str) -> Result<Option<Move>, AllocError> {
    let words = words_of(alloc, line)?;
    Ok(match words.as_slice() {
        ["join"] => Some(Move::Join),
        ["split", draws] => number_of(draws).map(Move::Split),
        [name, who, rest @ ..] => match (number_of(who), act_of(alloc, name, rest)?) {
            (Some(who), Some(act)) => Some(Move::One { who, act }),
            _ => None,
        },
        _ => None,
    })
}

/// What a pass does by this name.
fn act_of(alloc: Global, name: &str, words: &[&str]) -> Result<Option<Act>, AllocError> {
    Ok(match (name, words) {
        ("transact", _) => Some(Act::Transact(accesses_of(alloc, words)?)),
        ("pump", []) => Some(Act::Pump),
        ("fetch", [page]) => number_of(page).map(Act::Fetch),
        _ => None,
    })
}

/// The accesses that these words say: a number reads that word, two with `:` between read all from the first to the last, and two
/// with `=` between write.
fn accesses_of(alloc: Global, words: &[&str]) -> Result<Vec<Access>, AllocError> {
    let mut accesses = Vec::new(alloc);
    for word in words {
        if let Some((at, value)) = pair_of(word) {
            accesses.push(Access::Write { at, value })?;
        } else {
            let (first, last) = range_of(word);
            for at in first..last {
                accesses.push(Access::Read(at))?;
            }
        }
    }
    Ok(accesses)
}

/// The first word that is read, and the one behind the last.
fn range_of(word: &str) -> (u64, u64) {
    let (first, last) = word.split_once(':').unwrap_or((word, word));
    match (number_of(first), number_of(last)) {
        (Some(first), Some(last)) => (
            first,
            last.saturating_add(1).min(first.saturating_add(MOST)),
        ),
        _ => (0, 0),
    }
}
