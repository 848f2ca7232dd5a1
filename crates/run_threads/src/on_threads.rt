//! The requests of files, run on threads.

ghost use Rattle.dude_recover.specs.Opened.{IsOpened};
ghost use Rattle.run_threads.specs.Ends.{MayRunOn};
ghost use Rattle.run_threads.specs.RunsOnThreads.{RunsOnThreads};
ghost use Rattle.std.specs.Prelude.{length, map};

use crate::beginning::begin;
use crate::ending::finish;
use crate::serving::serve;
use dude_base::run::Run;
use dude_engine::Ran;
use dude_recover::Opened;
use pmem_trait::Medium;
use request_attempts::gate::Gate;
use std::alloc::Global;
use std::thread::Threads;
use tatp_model::Request;

/// Runs the requests of files, each file on a thread of its own, as transactions over shared pages. Whoever takes the turn
/// persists what has committed in bundles, announces and reproduces. When all threads are joined the rest is persisted,
/// announced and reproduced, and what a thread set aside after many refusals is run on one thread behind the others. Each
/// transaction passes the gate between its last read and its commit.
pub fn threaded<R: Threads + Sync, M: Medium + Send, G: Gate + Sync>(
    rt: &R,
    alloc: Global,
    opened: Opened<M>,
    run: &Run,
    files: &[Vec<Request>],
    gate: &G,
) -> Ran<M>
    requires opened { IsOpened opened }
    requires may { MayRunOn opened run.now (length files.now) (map (λ f. f.items) files.now) }
    ensures { RunsOnThreads opened run.now (map (λ f. f.items) files.now) result }
{
    match begin(alloc, opened, run, files.len() as u64) {
        Ok(begun) => {
            let lay = begun.lay;
            let served = serve(rt, alloc, begun, files, gate);
            finish(alloc, served, lay, run.frames, files)
        }
        Err(ran) => ran,
    }
}
