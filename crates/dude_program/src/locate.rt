//! The command `locate`.

ghost use Rattle.command_edges.specs.Command.{Meaning.LocateRange};
ghost use Rattle.command_edges.specs.Located.{located_text};
ghost use Rattle.dude_program.specs.Ended.{EndedWithoutFiles, Ends};
ghost use Rattle.dude_program.specs.Work.{EndsBy};
ghost use Rattle.pmem_trait.specs.Sights.{IsAtRest};
ghost use Rattle.std.specs.Prelude.{◌<◌, ◌^◌, None};

use crate::ended::Ended;
use crate::locating::{LocationRange, find_located};
use command_edges::{Fault, print_located};
use command_openings::open_and_announce;
use dude_io::Sink;
use pmem_trait::Medium;
use std::alloc::Global;

/// Prints the subscribers of the image whose location is in the range, by location and then by number.
pub fn locate<M: Medium, K: Sink>(
    alloc: Global,
    range: LocationRange,
    medium: M,
    out: &mut K,
) -> Ended<M>
    requires settled { IsAtRest (M.sight medium) }
    requires low { range.low < 2 ^ 32 }
    requires high { range.high < 2 ^ 32 }
    ensures ends { EndedWithoutFiles (Ends (LocateRange range.low range.high range.limit))
        M.sight K.sight medium out.old out.new result }
{
    let opened = match open_and_announce(alloc, medium) {
        Ok(opened) => opened,
        Err((fault, medium)) => return Ended::refused(alloc, fault, medium),
    };
    let words = opened.words;
    match find_located(alloc, &opened.lay, words, range) {
        Ok(found) => {
            let fault = print_found(alloc, &found, opened.number, out);
            Ended::new(fault, opened.back.into_medium(), Vec::new(alloc))
        }
        Err(_) => Ended::refused(alloc, Fault::Memory, opened.back.into_medium()),
    }
}

// Prints the subscribers found, and the last number.
fn print_found<K: Sink>(
    alloc: Global,
    found: &[(u64, u64)],
    last: u64,
    out: &mut K,
) -> Option<Fault>
    ensures { EndsBy K.sight (located_text found.now last) None result out.old out.new }
{
    print_located(alloc, found, last, out).err()
}
