//! Commands that run several files, each on a thread of its own.

use script_words::number_of;

/// Whether a command runs several files. Then its numbers, and its calls on the medium, depend on the turns of the threads.
pub fn runs_several(command: &[&str]) -> bool {
    match command {
        ["run" | "stream", rest @ ..] => behind_options(rest).len() > 1,
        ["drive", _, _, files] => number_of(files).unwrap_or(0) > 1,
        _ => false,
    }
}

/// The words behind the options and their numbers, the files of a run.
pub fn behind_options<'a>(words: &'a [&'a str]) -> &'a [&'a str] {
    behind_option(behind_option(words))
}

/// The words behind an option and its number, if they begin with one.
fn behind_option<'a>(words: &'a [&'a str]) -> &'a [&'a str] {
    match words {
        [option, _, rest @ ..] if option.starts_with("--") => rest,
        _ => words,
    }
}
