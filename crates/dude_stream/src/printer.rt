//! The printer: takes replies from all lanes in turn, and hands the sink their lines.

ghost use Rattle.dude_stream.specs.Printing.{HasPrinted, IsDrained, IsStopped, PrintsSome};
ghost use Rattle.std.specs.Prelude.{All, IfErr, IsTrue, OnOk};

use crate::gathering::gather_round;
use crate::outlet::Outlet;
use crate::print_fault::PrintFault;
use dude_io::{Sink, write_all};
use std::sync::atomic::{AtomicU64, Ordering};

/// After so many rounds in a row that found nothing the printer ends.
const IDLE_ROUNDS: u32 = 100_000_000;

/// Prints lines of all lanes until all are printed, or no more come: all workers ended before a round that found nothing,
/// or 100,000,000 rounds in a row found nothing. The lines go by way of `text`, in which nothing of use is left.
pub fn print_lanes<K: Sink>(
    outlets: &mut [Outlet],
    ended: &AtomicU64,
    workers: u64,
    text: &mut Vec<u8>,
    out: &mut K,
) -> Result<(), PrintFault>
    ensures ok { OnOk result
        (HasPrinted outlets.old outlets.new (K.sight out.old) (K.sight out.new)) }
    ensures drained { OnOk result (All IsDrained outlets.new) }
    ensures err { IfErr result (λ fault.
        IsStopped fault outlets.old outlets.new (K.sight out.old) (K.sight out.new)) }
{
    let mut more = true;
    'lines: while more {
        more = match print_more(outlets, ended, workers, text, out) {
            Ok(more) => more,
            Err(fault) => return Err(fault),
        };
    }
    Ok(())
}

// Goes round until a round printed something; false where all is printed, or no more comes.
fn print_more<K: Sink>(
    outlets: &mut [Outlet],
    ended: &AtomicU64,
    workers: u64,
    text: &mut Vec<u8>,
    out: &mut K,
) -> Result<bool, PrintFault>
    ensures { PrintsSome result outlets.old outlets.new (K.sight out.old) (K.sight out.new) }
{
    for round in 0..IDLE_ROUNDS {
        if is_all_printed(outlets) {
            return Ok(false);
        }
        let no_more = ended.load(Ordering::SeqCst) >= workers;
        let found = match print_round(outlets, text, out) {
            Ok(found) => found,
            Err(fault) => return Err(fault),
        };
        if found || no_more {
            return Ok(found);
        }
    }
    Ok(false)
}

// Takes replies from each lane, and hands the sink their lines; whether there was one.
fn print_round<K: Sink>(
    outlets: &mut [Outlet],
    text: &mut Vec<u8>,
    out: &mut K,
) -> Result<bool, PrintFault>
    ensures { PrintsSome result outlets.old outlets.new (K.sight out.old) (K.sight out.new) }
{
    text.clear();
    let gathered = gather_round(outlets, text);
    if write_all(out, text).is_err() {
        return Err(PrintFault::Sink);
    }
    match gathered {
        Ok(found) => Ok(found),
        Err(_) => Err(PrintFault::NoMemory),
    }
}

// Whether all lines of all files are printed.
fn is_all_printed(outlets: &[Outlet]) -> bool
    ensures { IsTrue result → All IsDrained outlets.now }
{
    for outlet in outlets {
        if outlet.left > 0 {
            return false;
        }
    }
    true
}
