//! A command, carried out by its words; the contract of the whole program is here.

ghost use Rattle.command_edges.specs.Command.{IsInLimits, meaning_of_command};
ghost use Rattle.command_edges.specs.Fault.{status_of};
ghost use Rattle.dude_program.specs.Ended.{EndedAs, CausesByWords, Ends, EndsByWords, FollowsByWords, HasOwnTheorem, HeadlineByWords, RefusesNoCommand};
ghost use Rattle.dude_program.specs.World.{world_of};
ghost use Rattle.pmem_trait.specs.Sights.{IsAtRest};
ghost use Rattle.std.specs.Prelude.{◌≡◌, map};
ghost use Rattle.std.specs.Rc.{rc_str_bytes};

use crate::audit::audit;
use crate::commands::{ImageCounts, drive, format, fresh, show};
use crate::ended::Ended;
use crate::follow::follow;
use crate::load::Load;
use crate::locate::locate;
use crate::locating::LocationRange;
use crate::print_time::PrintTime;
use crate::run::run;
use crate::run_options::RunOptions;
use crate::ship::ship;
use crate::shown::Shown;
use command_edges::{Command, Fault, command_of};
use dude_io::{Files, Sink};
use pmem_trait::Medium;
use request_attempts::gate::Gate;
use request_attempts::open_gate::OpenGate;
use std::alloc::Global;
use std::rc::RcStr;
use std::thread::Threads;

/// Carries out a command, by its kind.
fn carry_out<R: Threads + Sync, M: Medium + Send, F: Files, K: Sink + Send, G: Gate + Sync>(
    rt: &R,
    alloc: Global,
    command: &Command,
    medium: M,
    files: &mut F,
    out: &mut K,
    gate: &G,
) -> Ended<M>
    requires limits { IsInLimits command.now }
    requires settled { IsAtRest (M.sight medium) }
    ensures ends { EndedAs (Ends (meaning_of_command command.now))
        M.sight F.sight K.sight medium files.old files.new out.old out.new result }
    ensures own { HasOwnTheorem (meaning_of_command command.now)
        (world_of (M.sight medium) (F.sight files.old) (K.sight out.old))
        (world_of (M.sight result.medium) (F.sight files.new) (K.sight out.new)) result.fault }
{
    match *command {
        Command::Fresh { subscribers, file } => {
            fresh(alloc, subscribers, file, medium, files, out)
        }
        Command::Format {
            indexed,
            subscribers,
            calls,
            rings,
            cells,
        } => {
            let counts = ImageCounts {
                indexed,
                subscribers,
                calls,
                rings,
                cells,
            };
            format(alloc, counts, medium, out)
        }
        Command::Run {
            frames,
            locks,
            files: names,
        } => {
            let options = RunOptions { frames, locks };
            let time = PrintTime::AtEnd;
            run(rt, alloc, time, options, names, medium, files, out, gate)
        }
        Command::Stream {
            frames,
            locks,
            files: names,
        } => {
            let time = PrintTime::Meanwhile;
            let options = RunOptions { frames, locks };
            run(rt, alloc, time, options, names, medium, files, out, gate)
        }
        Command::Recover => show(alloc, Shown::Number, medium, out),
        Command::Dump => show(alloc, Shown::Tables, medium, out),
        Command::Locate { low, high, limit } => {
            let range = LocationRange { low, high, limit };
            locate(alloc, range, medium, out)
        }
        Command::Drive { seed, count, files } => {
            let load = Load { seed, count, files };
            drive(rt, alloc, load, medium, out, gate)
        }
        Command::Audit {
            printed,
            files: names,
        } => audit(alloc, names, printed, medium, files, out),
        Command::Ship { files: names } => ship(alloc, medium, names, files, out),
        Command::Follow { files: names } => follow(alloc, names, medium, files, out),
    }
}

/// Carries out a command. `run`, `stream` and `drive` start a thread for each file; `run` and `drive` one more that persists for
/// them, where a file is long, a ring and a processor are free, and each page has a frame; `stream` one more that prints; and
/// `drive`, before them, one for each file that makes its load. All are joined.
///
/// The words are the command and its arguments, without the image's name. `medium` is the image; `files` gives the
/// request files, a printed run and packets, and `out` gets the output. The medium is given back, also after a fault.
pub fn dude<R: Threads + Sync, M: Medium + Send, F: Files, K: Sink + Send>(
    rt: &R,
    alloc: Global,
    words: &[RcStr],
    medium: M,
    files: &mut F,
    out: &mut K,
) -> Ended<M>
    requires settled { IsAtRest (M.sight medium) }
    ensures status { result.status ≡ status_of result.fault }
    ensures refused { EndedAs (RefusesNoCommand (map rc_str_bytes words.now))
        M.sight F.sight K.sight medium files.old files.new out.old out.new result }
    ensures headline { EndedAs (HeadlineByWords (map rc_str_bytes words.now))
        M.sight F.sight K.sight medium files.old files.new out.old out.new result }
    ensures causes { EndedAs (CausesByWords (map rc_str_bytes words.now))
        M.sight F.sight K.sight medium files.old files.new out.old out.new result }
    ensures follows { FollowsByWords (map rc_str_bytes words.now)
        (world_of (M.sight medium) (F.sight files.old) (K.sight out.old))
        (world_of (M.sight result.medium) (F.sight files.new) (K.sight out.new)) result.fault }
{
    dude_watched(rt, alloc, words, medium, files, out, &OpenGate)
}

/// Does what `dude` does. Each transaction of a `run`, a `stream` or a `drive` passes the gate between its last read and its
/// commit.
pub fn dude_watched<R: Threads + Sync, M: Medium + Send, F: Files, K: Sink + Send, G: Gate + Sync>(
    rt: &R,
    alloc: Global,
    words: &[RcStr],
    medium: M,
    files: &mut F,
    out: &mut K,
    gate: &G,
) -> Ended<M>
    requires settled { IsAtRest (M.sight medium) }
    ensures status { result.status ≡ status_of result.fault }
    ensures ends { EndedAs (EndsByWords (map rc_str_bytes words.now))
        M.sight F.sight K.sight medium files.old files.new out.old out.new result }
{
    match command_of(alloc, words) {
        Ok(Some(command)) => carry_out(rt, alloc, &command, medium, files, out, gate),
        Ok(None) => Ended::refused(alloc, Fault::Usage, medium),
        Err(_) => Ended::refused(alloc, Fault::Memory, medium),
    }
}
