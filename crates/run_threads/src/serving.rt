//! Files are served on threads over a back, and the transactions are closed.

ghost use Rattle.run_threads.specs.Begun.{IsBegunFor, begun_table};
ghost use Rattle.run_threads.specs.Served.{HasServed};
ghost use Rattle.std.specs.Prelude.{map};

use crate::back_turns::BackTurns;
use crate::begun::Begun;
use crate::served::Served;
use pmem_trait::Medium;
use request_attempts::gate::Gate;
use run_workers::Work;
use run_workers::no_memory::NoMemory;
use std::alloc::Global;
use std::thread::Threads;
use tatp_model::Request;

/// Serves each file on a thread of its own, and closes the transactions. On want of memory before the threads are started
/// nothing is done.
pub(crate) fn serve<R: Threads + Sync, M: Medium + Send, G: Gate + Sync>(
    rt: &R,
    alloc: Global,
    begun: Begun<M>,
    files: &[Vec<Request>],
    gate: &G,
) -> Served<M>
    requires { IsBegunFor (map (λ f. f.items) files.now) begun }
    ensures { HasServed M.sight (begun_table begun).key begun.lay (map (λ f. f.items) files.now)
        result }
{
    let Begun { stm, pass, lay } = begun;
    let work = Work {
        alloc,
        stm: stm.steps(),
        turns: &BackTurns,
        lay: &lay,
        files,
        gate,
    };
    match work.serve_files(rt, pass) {
        Ok(joined) => Served::by_workers(stm, joined),
        Err(NoMemory { pass }) => Served::by_none(alloc, stm, pass),
    }
}
