//! The last line.

ghost use Rattle.dude_audit.specs.Last.{BeginsWithLast, BeginsWithNoLast};
ghost use Rattle.std.specs.Prelude.{◌≡◌, ◌↔◌, IsTrue, IfSome, IfNone, take, codes};

use crate::bytes::{find_byte, numeral};

/// A last line: its number, and where the bytes behind it begin.
#[derive(Clone, Copy)]
pub(crate) struct Last {
    pub(crate) number: u64,
    pub(crate) next: usize,
}

// Whether the line begins as a last line does.
fn begins_last(line: &[u8]) -> bool
    ensures { IsTrue result ↔ (take 5 line.now ≡ codes "last ") }
{
    line.len() >= 5 && &line[..5] == b"last ".as_slice()
}

/// Reads the last line, with which these bytes begin.
pub(crate) fn read_last(bytes: &[u8]) -> Option<Last>
    ensures last { IfSome result (BeginsWithLast bytes.now) }
    ensures none { IfNone result (BeginsWithNoLast bytes.now) }
{
    let to = find_byte(bytes, b'\n')?;
    let line = &bytes[..to];
    if !begins_last(line) {
        return None;
    }
    let number = numeral(&line[5..])?;
    Some(Last {
        number,
        next: to + 1,
    })
}
