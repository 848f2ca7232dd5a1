//! What command words mean.

use crate::stop::Stop;
use crate::text::unquoted;
use command_edges::{Command, command_of};
use std::alloc::{AllocError, Global};
use std::rc::RcStr;

/// The command that the words mean, or none.
pub fn words(words: &[&str], out: &mut Vec<u8>) -> Result<(), Stop> {
    let alloc = *out.allocator();
    let words = shared_words(alloc, words)?;
    let command = meaning_of(alloc, &words)?;
    out.extend_from_slice(format!(in alloc; "{command:?}\n")?.as_bytes())?;
    Ok(())
}

/// The command that the words mean. No clause: what `command_of` says of it isn't needed here.
fn meaning_of(alloc: Global, words: &[RcStr]) -> Result<Option<Command<'_>>, AllocError> {
    command_of(alloc, words)
}

/// The texts that these words say, each as a shared one.
pub fn shared_words(alloc: Global, words: &[&str]) -> Result<Vec<RcStr>, Stop> {
    let mut shared = Vec::new(alloc);
    for word in words {
        let text = unquoted(alloc, word.as_bytes())?;
        let Ok(text) = str::from_utf8(&text) else {
            return Err(Stop::NoCommand);
        };
        shared.push(RcStr::from_str(alloc, text)?)?;
    }
    Ok(shared)
}
