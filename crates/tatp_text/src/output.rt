//! What a run prints.

ghost use Rattle.std.specs.Prelude.{◌≡◌, ◌++◌, OnOk, OnErr};
ghost use Rattle.tatp_text.specs.Output.{output_line, last_line};

use crate::number::push_number;
use crate::reply::push_reply;
use std::alloc::AllocError;
use tatp_model::Done;

/// Appends the line of a request that was served. `out` is as it was where there is no memory.
pub fn write_done(done: &Done, out: &mut Vec<u8>) -> Result<(), AllocError>
    ensures ok { OnOk result (out.new.items ≡ out.old.items ++ output_line done.now) }
    ensures err { OnErr result (out.new.items ≡ out.old.items) }
{
    let mut line = Vec::new(*out.allocator());
    push_number(done.number, &mut line)?;
    line.push(b' ')?;
    push_reply(&done.reply, &mut line)?;
    line.push(b'\n')?;
    out.extend_from_slice(&line)
}

/// Appends the line that closes the output. `out` is as it was where there is no memory.
pub fn write_last(number: u64, out: &mut Vec<u8>) -> Result<(), AllocError>
    ensures ok { OnOk result (out.new.items ≡ out.old.items ++ last_line number) }
    ensures err { OnErr result (out.new.items ≡ out.old.items) }
{
    let mut line = Vec::from_slice(*out.allocator(), b"last ")?;
    push_number(number, &mut line)?;
    line.push(b'\n')?;
    out.extend_from_slice(&line)
}
