//! The line of a reply that is printed while a run goes on.

ghost use Rattle.dude_stream.specs.Lines.{lane_line};
ghost use Rattle.std.specs.Prelude.{◌≡◌, ◌++◌, ◌+◌, decimal, OnOk, OnErr};

use std::alloc::AllocError;
use tatp_model::Done;
use tatp_text::{push_number, write_done};

/// Appends the file, counted from 1, a space, and the line of the reply. `out` is as it was where there is no memory.
pub fn write_lane(done: &Done, out: &mut Vec<u8>) -> Result<(), AllocError>
    ensures ok { OnOk result (out.new.items ≡ out.old.items ++ lane_line done.now) }
    ensures err { OnErr result (out.new.items ≡ out.old.items) }
{
    let mut line = Vec::new(*out.allocator());
    push_next(done.file, &mut line)?;
    line.push(b' ')?;
    write_done(done, &mut line)?;
    out.extend_from_slice(&line)
}

// Appends the number behind this one. What an `Err` leaves is of no use.
fn push_next(number: u64, line: &mut Vec<u8>) -> Result<(), AllocError>
    ensures { OnOk result (line.new.items ≡ line.old.items ++ decimal (number + 1)) }
{
    if number < u64::MAX {
        return push_number(number + 1, line);
    }
    let next = u128::from(number) + 1;
    let text = format!(in *line.allocator(); "{next}")?;
    line.extend_from_slice(text.as_bytes())
}
