//! Why a bundle refuses a record.

use std::error::Error;
use std::fmt;

/// Why a bundle doesn't take a record.
#[derive(Clone, Copy, Debug)]
pub enum NoJoin {
    /// The record's number isn't the one behind the bundle's last.
    Gap { last: u64, number: u64 },
    /// The bundle covers as many numbers as it may: the last one, and so many before it.
    Long { span: u64 },
    /// Together they write so many different words, which are too many.
    Broad { places: u64 },
}

impl fmt::Display for NoJoin {
    ghost use Rattle.dude_base.specs.Texts.{no_join_words};
    ghost use Rattle.std.specs.Prelude.{Some};

    ghost output = { λ fault. Some (no_join_words fault) };

    fn fmt<W: fmt::Write>(&self, f: &mut fmt::Formatter<W>) -> fmt::Result {
        f.write_str(match self {
            NoJoin::Gap { .. } => "the number isn't the next one",
            NoJoin::Long { .. } => "the bundle covers too many numbers",
            NoJoin::Broad { .. } => "the bundle would write too many different words",
        })
    }
}

impl Error for NoJoin {}
