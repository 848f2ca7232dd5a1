//! Files are served on threads over a back while lines of the replies are printed, and the transactions are closed.

ghost use Rattle.run_threads.specs.Begun.{IsBegunFor, begun_table};
ghost use Rattle.run_threads.specs.Served.{HasServed};
ghost use Rattle.run_workers.specs.Streamed.{HasStreamed};
ghost use Rattle.run_workers.specs.declared.work_end.WorkEnd.TheVariants.{NoMemory as NoMemoryEnd};
ghost use Rattle.std.specs.Prelude.{◌≡◌, IfNone, IfSome, length, map};

use crate::back_turns::BackTurns;
use crate::begun::Begun;
use crate::printing::Printing;
use crate::served::Served;
use dude_io::Sink;
use pmem_trait::Medium;
use request_attempts::gate::Gate;
use run_workers::no_memory::NoMemory;
use run_workers::{StreamedFiles, Work};
use std::alloc::Global;
use std::thread::Threads;
use tatp_model::Request;

/// Serves each file on a thread of its own, while a printer hands the sink lines of the replies, and closes the transactions. On
/// want of memory before the threads are started nothing is done, and nothing printed.
pub(crate) fn serve_streaming<R: Threads + Sync, M: Medium + Send, G: Gate + Sync, K: Sink + Send>(
    rt: &R,
    alloc: Global,
    begun: Begun<M>,
    files: &[Vec<Request>],
    gate: &G,
    out: &mut K,
) -> (Served<M>, Option<Printing>)
    requires { IsBegunFor (map (λ f. f.items) files.now) begun }
    ensures served { HasServed M.sight (begun_table begun).key begun.lay
        (map (λ f. f.items) files.now) result.0 }
    ensures some { IfSome result.1 (λ p. HasStreamed (length files.now) result.0.done.items
        p.printed.items p.stopped (K.sight out.old) (K.sight out.new)) }
    ensures none { IfNone result.1
        ((result.0.end ≡ NoMemoryEnd) × (K.sight out.new ≡ K.sight out.old)) }
{
    let Begun { stm, pass, lay } = begun;
    let work = Work {
        files,
        gate,
        alloc,
        stm: stm.steps(),
        turns: &BackTurns,
        lay: &lay,
    };
    match work.stream_files(rt, pass, out) {
        Ok(streamed) => {
            let StreamedFiles {
                joined,
                printed,
                stopped,
            } = streamed;
            (
                Served::by_workers(stm, joined),
                Some(Printing { printed, stopped }),
            )
        }
        Err(NoMemory { pass }) => (Served::by_none(alloc, stm, pass), None),
    }
}
