//! The commands that make or open the image: each reads its files, makes or opens the image, does its work, and prints.

ghost use Rattle.command_edges.specs.Command.{IsBetween, Meaning.FreshRun, Meaning.FormatImage, Meaning.DriveLoad};
ghost use Rattle.dude_base.specs.Sizes.{AreTheSizes, IsFaultOf};
ghost use Rattle.dude_base.specs.declared.limits.TheConstants.{MAX_RINGS};
ghost use Rattle.dude_program.specs.Ended.{EndedAs, EndedWithoutFiles, Ends};
ghost use Rattle.dude_program.specs.Opening.{format_sizes};
ghost use Rattle.dude_program.specs.Show.{meaning_of_shown};
ghost use Rattle.pmem_trait.specs.Sights.{IsAtRest};
ghost use Rattle.std.specs.Prelude.{◌≤◌, IfErr, IfOk};

use crate::ended::Ended;
use crate::load::{Load, make_load};
use crate::output::{end_with_lines, end_with_summary, print_dump};
use crate::run_options::RunOptions;
use crate::shown::Shown;
use crate::turner::with_turner;
use crate::worked::{Worked, idle, work};
use command_edges::read_files;
use command_openings::{make_and_open, open_and_announce};
use dude_base::size_fault::SizeFault;
use dude_base::sizes::Sizes;
use dude_io::{Files, Sink};
use pmem_trait::Medium;
use request_attempts::gate::Gate;
use run_threads::threaded;
use std::alloc::Global;
use std::thread::Threads;

/// What a new image is to have.
#[derive(Clone, Copy)]
pub struct ImageCounts {
    /// Whether it has an index of locations.
    pub indexed: bool,
    pub subscribers: u64,
    pub calls: u64,
    pub rings: u64,
    pub cells: u64,
}

/// Makes a new image for so many subscribers, and runs the requests of the file.
pub fn fresh<M: Medium, F: Files, K: Sink>(
    alloc: Global,
    subscribers: u64,
    file: &str,
    medium: M,
    files: &mut F,
    out: &mut K,
) -> Ended<M>
    requires settled { IsAtRest (M.sight medium) }
    requires subscribers { IsBetween 1 10_000 subscribers }
    ensures ends { EndedAs (Ends (FreshRun subscribers file.now))
        M.sight F.sight K.sight medium files.old files.new out.old out.new result }
{
    let Ok(sizes) = Sizes::of(subscribers, 12 * subscribers, 1, 16) else {
        unreachable!()
    };
    let names = [file];
    let lists = match read_files(alloc, &names, files) {
        Ok(lists) => lists,
        Err(fault) => return Ended::refused(alloc, fault, medium),
    };
    match make_and_open(alloc, medium, &sizes) {
        Ok(opened) => end_with_lines(alloc, work(alloc, opened, &lists), out),
        Err((fault, medium)) => Ended::refused(alloc, fault, medium),
    }
}

// The sizes of an image that is to have so much.
fn sizes_of(counts: ImageCounts) -> Result<Sizes, SizeFault>
    ensures ok { IfOk result (AreTheSizes (format_sizes counts.indexed
        counts.subscribers counts.calls counts.rings counts.cells)) }
    ensures fault { IfErr result (IsFaultOf (format_sizes counts.indexed
        counts.subscribers counts.calls counts.rings counts.cells)) }
{
    let ImageCounts {
        indexed,
        subscribers,
        calls,
        rings,
        cells,
    } = counts;
    if indexed {
        Sizes::indexed(subscribers, calls, rings, cells)
    } else {
        Sizes::of(subscribers, calls, rings, cells)
    }
}

/// Makes a new image with so many subscribers, call rows, rings and cells of a ring, with an index or without.
pub fn format<M: Medium, K: Sink>(
    alloc: Global,
    counts: ImageCounts,
    medium: M,
    out: &mut K,
) -> Ended<M>
    requires settled { IsAtRest (M.sight medium) }
    requires subscribers { IsBetween 1 10_000 counts.subscribers }
    requires calls { IsBetween 1 120_000 counts.calls }
    requires rings { IsBetween 1 MAX_RINGS counts.rings }
    requires cells { IsBetween 16 4_096 counts.cells }
    ensures ends { EndedWithoutFiles (Ends (FormatImage counts.indexed counts.subscribers
        counts.calls counts.rings counts.cells))
        M.sight K.sight medium out.old out.new result }
{
    let Ok(sizes) = sizes_of(counts) else {
        unreachable!()
    };
    match make_and_open(alloc, medium, &sizes) {
        Ok(opened) => end_with_lines(alloc, idle(alloc, opened), out),
        Err((fault, medium)) => Ended::refused(alloc, fault, medium),
    }
}

/// Recovers the image, and prints this of it.
pub fn show<M: Medium, K: Sink>(alloc: Global, shown: Shown, medium: M, out: &mut K) -> Ended<M>
    requires settled { IsAtRest (M.sight medium) }
    ensures ends { EndedWithoutFiles (Ends (meaning_of_shown shown))
        M.sight K.sight medium out.old out.new result }
{
    match open_and_announce(alloc, medium) {
        Ok(opened) => match shown {
            Shown::Number => end_with_lines(alloc, idle(alloc, opened), out),
            Shown::Tables => {
                let fault = print_dump(alloc, &opened, out);
                Ended::new(fault, opened.back.into_medium(), Vec::new(alloc))
            }
        },
        Err((fault, medium)) => Ended::refused(alloc, fault, medium),
    }
}

/// Runs a load over the image, each file on a thread of its own: so many requests of each of so many files, made from a seed.
pub fn drive<R: Threads + Sync, M: Medium + Send, K: Sink, G: Gate + Sync>(
    rt: &R,
    alloc: Global,
    load: Load,
    medium: M,
    out: &mut K,
    gate: &G,
) -> Ended<M>
    requires settled { IsAtRest (M.sight medium) }
    requires count { load.count ≤ 99_999 }
    requires files { IsBetween 1 MAX_RINGS load.files }
    ensures ends { EndedWithoutFiles (Ends (DriveLoad load.seed load.count load.files))
        M.sight K.sight medium out.old out.new result }
{
    let opened = match open_and_announce(alloc, medium) {
        Ok(opened) => opened,
        Err((fault, medium)) => return Ended::refused(alloc, fault, medium),
    };
    match make_load(rt, alloc, &opened, &load) {
        Ok(lists) => {
            let options = RunOptions {
                frames: None,
                locks: None,
            };
            let run = options.over(opened.sizes.pages);
            let files = with_turner(rt, alloc, lists, &opened.sizes, run.frames);
            let ran = threaded(rt, alloc, opened, &run, &files, gate);
            end_with_summary(alloc, Worked::from_ran(ran), out)
        }
        Err(fault) => Ended::refused(alloc, fault, opened.back.into_medium()),
    }
}
