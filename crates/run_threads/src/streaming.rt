//! The requests of files, run on threads, of which the lines are printed meanwhile.

ghost use Rattle.dude_recover.specs.Opened.{IsOpened};
ghost use Rattle.dude_stream.specs.Streams.{Streams};
ghost use Rattle.run_threads.specs.Ends.{MayRunOn};
ghost use Rattle.run_threads.specs.RunsOnThreads.{RunsOnThreads};
ghost use Rattle.run_threads.specs.Streamed.{is_whole};
ghost use Rattle.std.specs.Prelude.{length, map};

use crate::beginning::begin;
use crate::ending::finish;
use crate::rest_lines::print_behind;
use crate::stream_serving::serve_streaming;
use crate::streamed_run::Streamed;
use dude_base::run::Run;
use dude_io::Sink;
use dude_recover::Opened;
use dude_stream::law_of_streams;
use pmem_trait::Medium;
use request_attempts::gate::Gate;
use std::alloc::Global;
use std::thread::Threads;
use tatp_model::Request;

/// Runs the requests of files as `threaded` does, while a printer hands the sink a line of each reply. Lines that aren't printed
/// when all threads are joined, and the last number, are printed behind a whole run. Where there is no memory for one of
/// these the run ends with `NoMemory`. Where the sink fails the run goes on, and nothing more is printed.
pub fn streamed<R: Threads + Sync, M: Medium + Send, G: Gate + Sync, K: Sink + Send>(
    rt: &R,
    alloc: Global,
    opened: Opened<M>,
    run: &Run,
    files: &[Vec<Request>],
    gate: &G,
    out: &mut K,
) -> Streamed<M>
    requires opened { IsOpened opened }
    requires may { MayRunOn opened run.now (length files.now) (map (λ f. f.items) files.now) }
    ensures runs { RunsOnThreads opened run.now (map (λ f. f.items) files.now) result.ran }
    ensures printed { Streams (is_whole result.ran.end) result.sink_failed
        result.ran.done.items result.ran.last (K.sight out.old) (K.sight out.new) }
{
    law_of_streams();
    match begin(alloc, opened, run, files.len() as u64) {
        Ok(begun) => {
            let lay = begun.lay;
            let (served, printing) = serve_streaming(rt, alloc, begun, files, gate, out);
            let ran = finish(alloc, served, lay, run.frames, files);
            match printing {
                Some(printing) => print_behind(alloc, ran, printing, out),
                None => Streamed {
                    ran,
                    sink_failed: false,
                },
            }
        }
        Err(ran) => Streamed {
            ran,
            sink_failed: false,
        },
    }
}
