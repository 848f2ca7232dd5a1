//! The form of single words.

ghost use Rattle.command_edges.specs.Clap.{is_number, is_number_or_absent};
ghost use Rattle.command_edges.specs.Command.{is_file_name, are_file_names};
ghost use Rattle.command_edges.specs.Run.{text_of};
ghost use Rattle.std.specs.Prelude.{◌≡◌, map};
ghost use Rattle.std.specs.Rc.{rc_str_bytes};

use std::rc::RcStr;

/// The most digits of a number.
const DIGITS: usize = 20;

/// One to twenty decimal digits.
pub fn is_number(word: &RcStr) -> bool
    ensures { result ≡ is_number (rc_str_bytes word.now) }
{
    let digits = word.as_bytes();
    if digits.is_empty() || digits.len() > DIGITS {
        return false;
    }
    for digit in digits {
        if !digit.is_ascii_digit() {
            return false;
        }
    }
    true
}

/// A number that may be left out.
pub fn is_number_or_absent(word: Option<&RcStr>) -> bool
    ensures { result ≡ is_number_or_absent (text_of rc_str_bytes word.entry) }
{
    match word {
        Some(number) => is_number(number),
        None => true,
    }
}

/// The name of a file.
pub fn is_file_name(word: &RcStr) -> bool
    ensures { result ≡ is_file_name (rc_str_bytes word.now) }
{
    let name = word.as_str();
    !name.is_empty() && !name.starts_with('-')
}

/// One or more names of files.
pub fn are_file_names(words: &[RcStr]) -> bool
    ensures { result ≡ are_file_names (map rc_str_bytes words.now) }
{
    for word in words {
        if !is_file_name(word) {
            return false;
        }
    }
    !words.is_empty()
}
