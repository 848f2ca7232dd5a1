//! What isn't printed yet when a run ends, and its last number.

ghost use Rattle.dude_io.specs.Sink.{Took};
ghost use Rattle.dude_stream.specs.Streams.{StopsAt, StopsIn, rest_lines, rest_text};
ghost use Rattle.std.specs.Prelude.{◌≡◌, ◌<◌, ◌++◌, length, All, IfErr, OnOk, slice_index};
ghost use Rattle.tatp_text.specs.Output.{last_line};

use crate::line::write_lane;
use crate::print_fault::PrintFault;
use dude_io::{Sink, write_all};
use std::alloc::AllocError;
use tatp_model::Done;
use tatp_text::write_last;

/// Of how many requests the lines are handed to the sink together.
const DONE_IN_A_PIECE: usize = 1_024;

/// Prints the lines of the requests done, but of each file not the first so many, and the last number. They go by way of
/// `text`, in which nothing of use is left.
pub fn print_rest<K: Sink>(
    done: &[Done],
    printed: &[u64],
    last: u64,
    text: &mut Vec<u8>,
    out: &mut K,
) -> Result<(), PrintFault>
    requires { All (λ d. d.file < length printed.now) done.now }
    ensures ok { OnOk result (Took (rest_text (slice_index printed.now) done.now last)
        (K.sight out.old) (K.sight out.new)) }
    ensures err { IfErr result (λ fault.
        StopsIn fault (rest_text (slice_index printed.now) done.now last)
        (K.sight out.old) (K.sight out.new)) }
{
    let mut at = 0;
    'pieces: while at < done.len() {
        let end = at + DONE_IN_A_PIECE.min(done.len() - at);
        match print_piece(&done[at..end], printed, text, out) {
            Ok(()) => at = end,
            Err(fault) => return Err(fault),
        }
    }
    print_last(last, text, out)
}

// Prints the lines of these requests, but not the first ones of each file.
fn print_piece<K: Sink>(
    done: &[Done],
    printed: &[u64],
    text: &mut Vec<u8>,
    out: &mut K,
) -> Result<(), PrintFault>
    requires { All (λ d. d.file < length printed.now) done.now }
    ensures ok { OnOk result (Took (rest_lines (slice_index printed.now) done.now)
        (K.sight out.old) (K.sight out.new)) }
    ensures err { IfErr result (λ fault.
        StopsAt fault (rest_lines (slice_index printed.now) done.now)
        (K.sight out.old) (K.sight out.new)) }
{
    text.clear();
    if append_rest(done, printed, text).is_err() {
        return Err(PrintFault::NoMemory);
    }
    if write_all(out, text).is_err() {
        return Err(PrintFault::Sink);
    }
    Ok(())
}

// Appends the lines of these requests, but not the first ones of each file. What an `Err` leaves is of no use.
fn append_rest(done: &[Done], printed: &[u64], text: &mut Vec<u8>) -> Result<(), AllocError>
    requires { All (λ d. d.file < length printed.now) done.now }
    ensures { OnOk result
        (text.new.items ≡ text.old.items ++ rest_lines (slice_index printed.now) done.now) }
{
    for entry in done {
        if entry.index >= printed[entry.file as usize] {
            write_lane(entry, text)?;
        }
    }
    Ok(())
}

// Prints the last number.
fn print_last<K: Sink>(last: u64, text: &mut Vec<u8>, out: &mut K) -> Result<(), PrintFault>
    ensures ok { OnOk result (Took (last_line last) (K.sight out.old) (K.sight out.new)) }
    ensures err { IfErr result (λ fault.
        StopsAt fault (last_line last) (K.sight out.old) (K.sight out.new)) }
{
    text.clear();
    if write_last(last, text).is_err() {
        return Err(PrintFault::NoMemory);
    }
    if write_all(out, text).is_err() {
        return Err(PrintFault::Sink);
    }
    Ok(())
}
