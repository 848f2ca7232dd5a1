//! The fault of a transaction that would write too many different words.

use std::error::Error;
use std::fmt;

/// A transaction would write a 25th different word.
#[derive(Clone, Copy, Debug)]
pub struct Wide;

impl fmt::Display for Wide {
    ghost use Rattle.dude_base.specs.Texts.{wide_words};
    ghost use Rattle.std.specs.Prelude.{Some};

    ghost output = { λ _. Some wide_words };

    fn fmt<W: fmt::Write>(&self, f: &mut fmt::Formatter<W>) -> fmt::Result {
        f.write_str("too many different words are written")
    }
}

impl Error for Wide {}
