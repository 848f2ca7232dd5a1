//! `run` and `stream`: run the requests of files on threads, and print the replies at the end, or each while others are still to
//! come.

ghost use Rattle.command_edges.specs.Command.{IsBetween};
ghost use Rattle.dude_base.specs.declared.limits.TheConstants.{MAX_LOCKS};
ghost use Rattle.dude_program.specs.Ended.{EndedAs, EndsWork, Ends};
ghost use Rattle.dude_program.specs.Run.{fault_of_stream, meaning_of_run};
ghost use Rattle.pmem_trait.specs.Sights.{IsAtRest};
ghost use Rattle.std.specs.Prelude.{◌≡◌, ◌<◌, IfSome, length, map};
ghost use Rattle.std.specs.Rc.{rc_str_bytes};

use crate::ended::Ended;
use crate::output::end_with_lines;
use crate::prepared::{Prepared, prepare};
use crate::print_time::PrintTime;
use crate::run_options::RunOptions;
use crate::turner::with_turner;
use crate::worked::Worked;
use command_edges::Fault;
use dude_io::{Files, Sink};
use pmem_trait::Medium;
use request_attempts::gate::Gate;
use run_threads::{streamed, threaded};
use std::alloc::Global;
use std::rc::RcStr;
use std::thread::Threads;

// How a streamed run ended: with the fault of its run, or where it has none and the sink failed, with that.
fn end_streamed<M>(worked: Worked<M>, sink_failed: bool) -> Ended<M>
    ensures work { EndsWork worked result }
    ensures fault { result.fault ≡ fault_of_stream worked.fault sink_failed }
{
    let fault = match worked.fault {
        Some(fault) => Some(fault),
        None if sink_failed => Some(Fault::Output),
        None => None,
    };
    Ended::new(fault, worked.medium, worked.done)
}

/// Runs the requests of the files over the image, each file on a thread of its own, and prints the replies at that time.
pub fn run<R: Threads + Sync, M: Medium + Send, F: Files, K: Sink + Send, G: Gate + Sync>(
    rt: &R,
    alloc: Global,
    time: PrintTime,
    options: RunOptions,
    names: &[RcStr],
    medium: M,
    files: &mut F,
    out: &mut K,
    gate: &G,
) -> Ended<M>
    requires locks { IfSome options.locks (IsBetween 1 MAX_LOCKS) }
    requires some { 0 < length names.now }
    requires settled { IsAtRest (M.sight medium) }
    ensures ends { EndedAs (Ends (meaning_of_run time options (map rc_str_bytes names.now)))
        M.sight F.sight K.sight medium files.old files.new out.old out.new result }
{
    match prepare(alloc, options.frames, names, medium, files) {
        Ok(Prepared { lists, opened }) => {
            let run = options.over(opened.sizes.pages);
            match time {
                PrintTime::AtEnd => {
                    let requests = with_turner(rt, alloc, lists, &opened.sizes, run.frames);
                    let ran = threaded(rt, alloc, opened, &run, &requests, gate);
                    end_with_lines(alloc, Worked::from_ran(ran), out)
                }
                PrintTime::Meanwhile => {
                    let streamed = streamed(rt, alloc, opened, &run, &lists, gate, out);
                    end_streamed(Worked::from_ran(streamed.ran), streamed.sink_failed)
                }
            }
        }
        Err(ended) => ended,
    }
}
