//! The lines of the requests done and of the last number, handed to a sink in pieces.

ghost use Rattle.command_edges.specs.Printing.{Gathers, Prints, StopsWithin, with_line, with_last};
ghost use Rattle.std.specs.Prelude.{OnOk, IfErr};
ghost use Rattle.tatp_text.specs.Output.{output_of};

use crate::fault::Fault;
use crate::text::print_text;
use dude_io::Sink;
use std::alloc::Global;
use tatp_model::Done;
use tatp_text::{write_done, write_last};

/// How many bytes are held back before the sink gets them.
const PIECE: usize = 65_536;

/// Adds the line of a request, and hands the sink what was held back where that is much.
fn print_line<K: Sink>(done: &Done, text: &mut Vec<u8>, out: &mut K) -> Result<(), Fault>
    ensures ok { OnOk result (Gathers K.sight done.now text.old text.new out.old out.new) }
    ensures err { IfErr result (StopsWithin K.sight (with_line text.old done.now) out.old out.new) }
{
    write_done(done, text)?;
    if text.len() >= PIECE {
        print_text(text, out)?;
        text.clear();
    }
    Ok(())
}

/// Adds the last line, and hands the sink all.
pub fn print_last<K: Sink>(last: u64, text: &mut Vec<u8>, out: &mut K) -> Result<(), Fault>
    ensures ok { OnOk result (Prints K.sight (with_last text.old last) out.old out.new) }
    ensures err { IfErr result (StopsWithin K.sight (with_last text.old last) out.old out.new) }
{
    write_last(last, text)?;
    print_text(text, out)
}

/// Prints a line for each request done, and the last number.
pub fn print_lines<K: Sink>(
    alloc: Global,
    done: &[Done],
    last: u64,
    out: &mut K,
) -> Result<(), Fault>
    ensures ok { OnOk result (Prints K.sight (output_of done.now last) out.old out.new) }
    ensures err { IfErr result (StopsWithin K.sight (output_of done.now last) out.old out.new) }
{
    let mut text = Vec::new(alloc);
    for entry in done {
        if let Err(fault) = print_line(entry, &mut text, out) {
            return Err(fault);
        }
    }
    print_last(last, &mut text, out)
}
