//! What isn't printed yet when threads have ended, behind a whole run.

ghost use Rattle.dude_engine.specs.declared.ran.RanEnd.TheVariants.{Whole};
ghost use Rattle.run_threads.specs.Streamed.{IsSameRan, PrintsBehind};
ghost use Rattle.std.specs.Prelude.{◌≡◌, ◌<◌, None, All, length, vec_len};

use crate::printing::Printing;
use crate::streamed_run::Streamed;
use dude_engine::{Ran, RanEnd};
use dude_io::Sink;
use dude_stream::{PrintFault, law_of_streams, print_rest};
use pmem_trait::Medium;
use std::alloc::Global;

/// Hands the sink what isn't printed yet, unless it failed before.
pub(crate) fn print_behind<M: Medium, K: Sink>(
    alloc: Global,
    ran: Ran<M>,
    printing: Printing,
    out: &mut K,
) -> Streamed<M>
    requires { All (λ d. d.file < vec_len printing.printed) ran.done.items }
    ensures same { IsSameRan ran result.ran }
    ensures printed { PrintsBehind ran printing.printed.items printing.stopped result
        (K.sight out.old) (K.sight out.new) }
{
    let Printing { printed, stopped } = printing;
    law_of_streams();
    match stopped {
        Some(PrintFault::Sink) => Streamed {
            ran,
            sink_failed: true,
        },
        Some(PrintFault::NoMemory) => print_if_whole(alloc, ran, &printed, out),
        None => print_if_whole(alloc, ran, &printed, out),
    }
}

// Hands the sink what isn't printed yet, if the run is whole.
fn print_if_whole<M: Medium, K: Sink>(
    alloc: Global,
    ran: Ran<M>,
    printed: &[u64],
    out: &mut K,
) -> Streamed<M>
    requires { All (λ d. d.file < length printed.now) ran.done.items }
    ensures same { IsSameRan ran result.ran }
    ensures printed { PrintsBehind ran printed.now None result
        (K.sight out.old) (K.sight out.new) }
{
    law_of_streams();
    match ran.end {
        RanEnd::Whole => print_whole(alloc, ran, printed, out),
        RanEnd::NoMemory | RanEnd::Device => Streamed {
            ran,
            sink_failed: false,
        },
    }
}

// Hands the sink what isn't printed yet of a whole run. Where there is no memory for it, the run ends so.
fn print_whole<M: Medium, K: Sink>(
    alloc: Global,
    mut ran: Ran<M>,
    printed: &[u64],
    out: &mut K,
) -> Streamed<M>
    requires whole { ran.end ≡ Whole }
    requires inside { All (λ d. d.file < length printed.now) ran.done.items }
    ensures same { IsSameRan ran result.ran }
    ensures printed { PrintsBehind ran printed.now None result
        (K.sight out.old) (K.sight out.new) }
{
    law_of_streams();
    let mut text = Vec::new(alloc);
    match print_rest(&ran.done, printed, ran.last, &mut text, out) {
        Ok(()) => Streamed {
            ran,
            sink_failed: false,
        },
        Err(PrintFault::Sink) => Streamed {
            ran,
            sink_failed: true,
        },
        Err(PrintFault::NoMemory) => {
            ran.end = RanEnd::NoMemory;
            Streamed {
                ran,
                sink_failed: false,
            }
        }
    }
}
