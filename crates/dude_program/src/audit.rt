//! `audit`: whether a printed run is a one-thread run of its files from the image at hand, which is only read.

ghost use Rattle.command_edges.specs.Command.{Meaning.AuditRun};
ghost use Rattle.command_edges.specs.Files.{AreInRange};
ghost use Rattle.command_openings.specs.ImageRead.{OnlyReadsImage, opening_read};
ghost use Rattle.dude_engine.specs.Opening.{IsOpening};
ghost use Rattle.dude_program.specs.Ended.{EndedAs, Ends};
ghost use Rattle.dude_program.specs.Judging.{IsAnswerFor, IsAnswerOn};
ghost use Rattle.dude_program.specs.Work.{EndsBy};
ghost use Rattle.pmem_trait.specs.Sights.{IsAtRest};
ghost use Rattle.std.specs.Prelude.{◌++◌, ◌∷◌, [], codes, map, IfOk, None};
ghost use Rattle.std.specs.Rc.{rc_str_bytes};

use crate::ended::Ended;
use command_edges::{Fault, PrintedRun, print_text, read_printed_run};
use command_openings::{ImageRead, read_image};
use dude_audit::{Verdict, audit as judge};
use dude_io::{FileText, Files, Sink};
use pmem_trait::Medium;
use std::alloc::{AllocError, Global};
use std::rc::RcStr;

// The verdict on a printed run, from the tables of an image on. A text that is too long has no line.
fn verdict_on(alloc: Global, image: &ImageRead, run: &PrintedRun) -> Result<Verdict, AllocError>
    requires lawful { IsOpening (opening_read image.now) }
    requires in_range { AreInRange run.now.files }
    ensures { IfOk result (IsAnswerFor (opening_read image.now) run.now) }
{
    match &run.printed {
        FileText::TooLong => Ok(Verdict::No { line: 0 }),
        FileText::Whole(text) => judge(
            alloc,
            &image.tables,
            image.sizes.calls,
            image.number,
            &run.files,
            text,
        ),
    }
}

// The verdict on a printed run, from the image on a medium on, which is only read.
fn answer_on<M: Medium>(alloc: Global, medium: &mut M, run: &PrintedRun) -> Result<Verdict, Fault>
    requires in_range { AreInRange run.now.files }
    ensures answer { IfOk result (IsAnswerOn (M.sight medium.old) run.now) }
    ensures reads { OnlyReadsImage result (M.sight medium.old) (M.sight medium.new) }
{
    let image = match read_image(alloc, medium) {
        Ok(image) => image,
        Err(fault) => return Err(fault),
    };
    match verdict_on(alloc, &image, run) {
        Ok(verdict) => Ok(verdict),
        Err(_) => Err(Fault::Memory),
    }
}

// Prints that the run is one thread's.
fn print_yes<K: Sink>(out: &mut K) -> Option<Fault>
    ensures { EndsBy K.sight (codes "yes" ++ 10 ∷ []) None result out.old out.new }
{
    print_text(b"yes\n", out).err()
}

/// Says whether a printed run is a one-thread run of the files of these names from the image on.
pub fn audit<M: Medium, F: Files, K: Sink>(
    alloc: Global,
    names: &[RcStr],
    printed: &str,
    medium: M,
    files: &mut F,
    out: &mut K,
) -> Ended<M>
    requires settled { IsAtRest (M.sight medium) }
    ensures ends { EndedAs (Ends (AuditRun printed.now (map rc_str_bytes names.now)))
        M.sight F.sight K.sight medium files.old files.new out.old out.new result }
{
    let run = match read_printed_run(alloc, printed, names, files) {
        Ok(run) => run,
        Err(fault) => return Ended::refused(alloc, fault, medium),
    };
    let mut medium = medium;
    match answer_on(alloc, &mut medium, &run) {
        Ok(Verdict::Yes) => Ended::new(print_yes(out), medium, Vec::new(alloc)),
        Ok(Verdict::No { line }) => Ended::refused(alloc, Fault::Audit { line }, medium),
        Err(fault) => Ended::refused(alloc, fault, medium),
    }
}
