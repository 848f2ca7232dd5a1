//! The calls of a history are done again, and an image is picked of what they leave.

ghost use Rattle.pmem_fake.specs.History.{was_effective};
ghost use Rattle.pmem_fake.specs.Replays.{AreAtStart, AreAfter, Steps, StepsMade, TakesPicks, IsPickedAfter, IsLastAfter, IsLastTold};
ghost use Rattle.pmem_trait.specs.declared.call.Call.TheVariants.{Put, Flush, Fence};
ghost use Rattle.std.specs.Prelude.{◌≡◌, length, slice_index, IfOk, OnOk};

use crate::word_state::WordState;
use pmem_trait::{Call, Made};
use std::alloc::{AllocError, Global};

// The words of an untouched medium.
fn open_words(alloc: Global, start: &[u64]) -> Result<Vec<WordState>, AllocError>
    ensures { IfOk result (AreAtStart start.now) }
{
    let mut words = Vec::with_capacity(alloc, start.len())?;
    for value in start {
        words.push(WordState::new(alloc, *value))?;
    }
    Ok(words)
}

fn put_word(words: &mut [WordState], at: u64, value: u64) -> Result<(), AllocError>
    ensures { OnOk result (Steps (Put at value) words.old words.new) }
{
    let at = at as usize;
    if at < words.len() {
        words[at].put(value)
    } else {
        Ok(())
    }
}

fn note_line(words: &mut [WordState], line: u64)
    ensures { Steps (Flush line) words.old words.new }
{
    let first = (line.saturating_mul(8) as usize).min(words.len());
    let end = first.saturating_add(8).min(words.len());
    for k in first..end {
        words[k].note();
    }
}

fn settle_words(words: &mut [WordState])
    ensures { Steps Fence words.old words.new }
{
    for k in 0..words.len() {
        words[k].fence();
    }
}

// Does a call again.
fn repeat(words: &mut [WordState], call: Call) -> Result<(), AllocError>
    ensures { OnOk result (Steps call words.old words.new) }
{
    match call {
        Call::Put { at, value } => put_word(words, at, value),
        Call::Flush(line) => {
            note_line(words, line);
            Ok(())
        }
        Call::Fence => {
            settle_words(words);
            Ok(())
        }
        Call::Read(_) | Call::Tell(_) => Ok(()),
    }
}

// Whether a call had its effect.
fn had_effect(late: bool, made: &Made) -> bool
    ensures { result ≡ was_effective late made.now }
{
    late || !made.failed
}

// Does a call again, if it had its effect.
fn repeat_made(words: &mut [WordState], late: bool, made: &Made) -> Result<(), AllocError>
    ensures len { OnOk result (length words.new ≡ length words.old) }
    ensures state { OnOk result (StepsMade late made.now words.old words.new) }
{
    if had_effect(late, made) {
        repeat(words, made.call)
    } else {
        Ok(())
    }
}

// The words after these calls.
fn replay(
    alloc: Global,
    start: &[u64],
    calls: &[Made],
    late: bool,
) -> Result<Vec<WordState>, AllocError>
    ensures { IfOk result (AreAfter late calls.now start.now) }
{
    let mut words = open_words(alloc, start)?;
    for made in calls {
        repeat_made(&mut words, late, made)?;
    }
    Ok(words)
}

// The pick for word `k`, 0 where there is none.
fn pick_at(picks: &[u64], k: usize) -> u64
    ensures { result ≡ slice_index picks.now k }
{
    if k < picks.len() { picks[k] } else { 0 }
}

// The image that the picks take of these words.
fn take_picks(alloc: Global, words: &[WordState], picks: &[u64]) -> Result<Vec<u64>, AllocError>
    ensures { IfOk result (λ image. TakesPicks words.now picks.now image.items) }
{
    let mut image = Vec::with_capacity(alloc, words.len())?;
    for (k, word) in words.iter().enumerate() {
        image.push(word.pick(pick_at(picks, k)))?;
    }
    Ok(image)
}

/// The image that the picks take after these calls, on a medium that began with these words.
pub fn image_after(
    alloc: Global,
    start: &[u64],
    calls: &[Made],
    late: bool,
    picks: &[u64],
) -> Result<Vec<u64>, AllocError>
    ensures { IfOk result (IsPickedAfter late calls.now start.now picks.now) }
{
    let words = replay(alloc, start, calls, late)?;
    take_picks(alloc, &words, picks)
}

// The last number told after a call, by the last one before it.
fn told_after_made(before: Option<u64>, late: bool, made: &Made) -> Option<u64>
    ensures { IsLastAfter late made.now before result }
{
    match made.call {
        Call::Tell(number) if had_effect(late, made) => Some(number),
        _ => before,
    }
}

/// The last number told in these calls.
pub fn last_told_by(calls: &[Made], late: bool) -> Option<u64>
    ensures { IsLastTold late calls.now result }
{
    let mut told = None;
    for made in calls {
        told = told_after_made(told, late, made);
    }
    told
}
