//! What threads set aside is run on one thread behind them.

ghost use Rattle.dude_engine.specs.Requests.{AreInRange};
ghost use Rattle.run_threads.specs.SetAside.{RunsBehind, WasSetAside};
ghost use Rattle.run_threads.specs.Streamed.{StandFirst};
ghost use Rattle.std.specs.Prelude.{◌≤◌, length, map};

use crate::ending::end_with;
use crate::rest_files::{left_of_files, reserve};
use crate::union::unite;
use crate::{read_home, reopen};
use dude_engine::{Ran, RanEnd, plain};
use pmem_trait::Medium;
use std::alloc::Global;
use tatp_layout::Layout;
use tatp_model::{Done, Request};
use tiny_stm::closed::Closed;

/// Opens the image again behind the threads, and runs on one thread what they set aside.
pub(crate) fn run_rests<M: Medium>(
    alloc: Global,
    mut closed: Closed<M>,
    lay: Layout,
    frames: u64,
    files: &[Vec<Request>],
    mut done: Vec<Done>,
    counts: Vec<u64>,
) -> Ran<M>
    requires aside { WasSetAside M.sight lay frames (map (λ f. f.items) files.now) closed
        done.items counts.items }
    requires rings { length files.now ≤ lay.rings }
    requires in_range { AreInRange (map (λ f. f.items) files.now) }
    ensures ran { RunsBehind M.sight lay frames (map (λ f. f.items) files.now) closed done.items
        counts.items result }
    ensures first { StandFirst done.items result.done.items }
{
    let Ok(rests) = left_of_files(alloc, files, counts.as_slice()) else {
        return end_with(done, closed, RanEnd::NoMemory);
    };
    let Ok(()) = reserve(&mut done, rests.as_slice()) else {
        return end_with(done, closed, RanEnd::NoMemory);
    };
    let Ok(()) = read_home(&mut closed, frames) else {
        return end_with(done, closed, RanEnd::Device);
    };
    let number = closed.number;
    match reopen(alloc, closed, lay) {
        Ok(opened) => {
            let Ran {
                done: behind,
                medium,
                end,
                last,
            } = plain(alloc, opened, rests.as_slice());
            unite(&mut done, behind.as_slice(), counts.as_slice());
            Ran {
                done,
                medium,
                end,
                last,
            }
        }
        Err((_, medium)) => Ran {
            done,
            medium,
            end: RanEnd::NoMemory,
            last: number,
        },
    }
}
