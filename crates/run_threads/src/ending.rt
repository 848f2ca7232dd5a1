//! What threads left is made durable, and what they set aside is run behind them.

ghost use Rattle.back_store.specs.BackView.{medium_of, state_of};
ghost use Rattle.dude_engine.specs.Requests.{AreInRange};
ghost use Rattle.dude_engine.specs.declared.ran.RanEnd.TheVariants.{Whole as WholeRun};
ghost use Rattle.run_threads.specs.Served.{RunsOn, WasServed};
ghost use Rattle.run_threads.specs.Streamed.{StandFirst};
ghost use Rattle.run_workers.specs.declared.work_end.WorkEnd.TheVariants.{NoMemory as NoMemoryEnd};
ghost use Rattle.std.specs.Prelude.{◌≡◌, ◌≢◌, ◌≤◌, length, map};

use crate::persist_rest;
use crate::rests::run_rests;
use crate::served::Served;
use dude_engine::{Ran, RanEnd};
use pmem_trait::{Failed, Medium};
use run_workers::work_end::WorkEnd;
use std::alloc::Global;
use tatp_layout::Layout;
use tatp_model::{Done, Request};
use tiny_stm::closed::Closed;

/// Persists, announces and reproduces what the threads left, and runs on one thread what they set aside.
pub(crate) fn finish<M: Medium>(
    alloc: Global,
    served: Served<M>,
    lay: Layout,
    frames: u64,
    files: &[Vec<Request>],
) -> Ran<M>
    requires served { WasServed M.sight lay frames (map (λ f. f.items) files.now) served }
    requires rings { length files.now ≤ lay.rings }
    requires in_range { AreInRange (map (λ f. f.items) files.now) }
    ensures ran { RunsOn M.sight lay frames (map (λ f. f.items) files.now) served result }
    ensures first { StandFirst served.done.items result.done.items }
    ensures memory { served.end ≡ NoMemoryEnd → result.end ≢ WholeRun }
{
    let Served {
        mut closed,
        done,
        counts,
        end,
    } = served;
    match persist_rest(&mut closed) {
        Ok(()) => match end {
            WorkEnd::Whole => end_with(done, closed, RanEnd::Whole),
            WorkEnd::NoMemory => end_with(done, closed, RanEnd::NoMemory),
            WorkEnd::SetAside => run_rests(alloc, closed, lay, frames, files, done, counts),
            WorkEnd::Device => unreachable!(),
        },
        Err(Failed) => end_with(done, closed, RanEnd::Device),
    }
}

/// The run ends here.
pub(crate) fn end_with<M: Medium>(done: Vec<Done>, closed: Closed<M>, end: RanEnd) -> Ran<M>
    ensures done { result.done.items ≡ done.items }
    ensures medium { result.medium ≡ medium_of closed.back }
    ensures end { result.end ≡ end }
    ensures last { result.last ≡ (state_of closed.back).log.durable }
{
    let Closed {
        back,
        rest: _,
        words: _,
        number: _,
    } = closed;
    let last = back.durable();
    Ran {
        done,
        medium: back.into_medium(),
        end,
        last,
    }
}
