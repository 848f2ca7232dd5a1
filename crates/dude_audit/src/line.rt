//! A line.

ghost use Rattle.dude_audit.specs.Line.{BeginsWithLine, BeginsWithNoLine};
ghost use Rattle.std.specs.Prelude.{IfSome, IfNone};

use crate::bytes::{find_byte, numeral};

/// A line: its number, and where its text begins and ends.
#[derive(Clone, Copy)]
pub(crate) struct Line {
    pub(crate) number: u64,
    pub(crate) from: usize,
    pub(crate) to: usize,
}

/// Reads the line with which these bytes begin.
pub(crate) fn read_line(bytes: &[u8]) -> Option<Line>
    ensures line { IfSome result (BeginsWithLine bytes.now) }
    ensures none { IfNone result (BeginsWithNoLine bytes.now) }
{
    let to = find_byte(bytes, b'\n')?;
    let line = &bytes[..to];
    let space = find_byte(line, b' ')?;
    let number = numeral(&line[..space])?;
    Some(Line {
        number,
        from: space + 1,
        to,
    })
}
