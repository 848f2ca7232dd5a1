//! The words of the machine, by their names in a script.

use dude_core::CoreWord;

/// The word of this name and these numbers.
pub fn word_of(name: &str, numbers: &[u64]) -> Option<CoreWord> {
    match numbers {
        [] => plain_word(name),
        [number] => numbered_word(name, *number),
        [thread, place] => box_word(name, *thread, *place),
        _ => None,
    }
}

fn plain_word(name: &str) -> Option<CoreWord> {
    match name {
        "Threads" => Some(CoreWord::Threads),
        "Clock" => Some(CoreWord::Clock),
        "Turn" => Some(CoreWord::Turn),
        "Durable" => Some(CoreWord::Durable),
        "Reproduced" => Some(CoreWord::Reproduced),
        _ => None,
    }
}

fn numbered_word(name: &str, number: u64) -> Option<CoreWord> {
    match name {
        "Lock" => Some(CoreWord::Lock(number)),
        "Entry" => Some(CoreWord::Entry(number)),
        "Touch" => Some(CoreWord::Touch(number)),
        _ => None,
    }
}

fn box_word(name: &str, thread: u64, place: u64) -> Option<CoreWord> {
    match name {
        "Box" => Some(CoreWord::BoxWord { thread, place }),
        _ => None,
    }
}
