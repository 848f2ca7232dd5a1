//! The lines of the subscribers that `locate` found and of the last number.

ghost use Rattle.command_edges.specs.Located.{located_line, located_text};
ghost use Rattle.command_edges.specs.Printing.{Prints, StopsWithin};
ghost use Rattle.std.specs.List.{flat_map};
ghost use Rattle.std.specs.Prelude.{◌≡◌, ◌++◌, IfErr, IfOk, OnOk};

use crate::fault::Fault;
use crate::lines::print_last;
use dude_io::Sink;
use std::alloc::{AllocError, Global};
use tatp_text::push_number;

/// Adds the line of a subscriber found. What an `Err` leaves is of no use.
fn push_found(found: &(u64, u64), text: &mut Vec<u8>) -> Result<(), AllocError>
    ensures { OnOk result (text.new.items ≡ text.old.items ++ located_line found.now) }
{
    push_number(found.0, text)?;
    text.push(b' ')?;
    push_number(found.1, text)?;
    text.push(b'\n')?;
    Ok(())
}

// The lines of the subscribers found.
fn lines_of(alloc: Global, found: &[(u64, u64)]) -> Result<Vec<u8>, AllocError>
    ensures { IfOk result (λ text. text.items ≡ flat_map located_line found.now) }
{
    let mut text = Vec::new(alloc);
    for row in found {
        push_found(row, &mut text)?;
    }
    Ok(text)
}

/// Prints the number and the location of each subscriber found, and the last number. The text is made whole first.
pub fn print_located<K: Sink>(
    alloc: Global,
    found: &[(u64, u64)],
    last: u64,
    out: &mut K,
) -> Result<(), Fault>
    ensures ok { OnOk result (Prints K.sight (located_text found.now last) out.old out.new) }
    ensures err { IfErr result (StopsWithin K.sight (located_text found.now last) out.old out.new) }
{
    let mut text = lines_of(alloc, found)?;
    print_last(last, &mut text, out)
}
