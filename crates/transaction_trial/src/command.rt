//! What the words of a command line ask for.

use crate::settings::{Settings, number_of, read_settings};

/// What the words of a command line ask for.
#[derive(Clone, Copy)]
pub struct Command {
    /// Whether the tables of so many subscribers are read first.
    pub read: Option<u64>,
    pub trial: Settings,
}

/// What these words ask for.
pub fn read_command(words: &[String]) -> Option<Command> {
    match words {
        [word, subscribers, trial @ ..] if word.as_str() == "read" => Some(Command {
            read: Some(number_of(subscribers)?),
            trial: read_settings(trial)?,
        }),
        _ => Some(Command {
            read: None,
            trial: read_settings(words)?,
        }),
    }
}
