//! A stream of two files, whose requests wait for lines that are out.

ghost use Rattle.pmem_fake.specs.Fakes.{sight};
ghost use Rattle.pmem_trait.specs.Sights.{IsAtRest};
ghost use Rattle.std.specs.Prelude.{IfOk};

use crate::image::new_image;
use crate::line_gate::LineGate;
use crate::line_sink::LineSink;
use dude_base::sizes::Sizes;
use dude_io::{MemFile, MemFiles, MemSink};
use dude_program::dude_watched;
use pmem_fake::MemPmem;
use std::alloc::{AllocError, Global};
use std::rc::RcStr;
use std::thread::Threads;

/// The words of the command.
const WORDS: [&str; 3] = ["stream", "a", "b"];

/// How many updates a file has.
const UPDATES: u64 = 200;

/// How many calls on the medium are remembered.
const BUDGET: u64 = 100_000;

/// How many bytes a read gives and a write takes at most, and how many the sink takes in all.
const CHUNK: u64 = 4_096;

const ROOM: u64 = 65_536;

/// What a stream left.
#[derive(Drop)]
pub struct Streamed {
    pub status: u8,
    /// What the sink took.
    pub printed: Vec<u8>,
    /// How many lines of each file it took.
    pub lines: (u64, u64),
    /// Whether lines were out before later requests were done.
    pub was_met: bool,
}

/// Streams two files over a new image of these sizes: updates of subscriber 1, and updates of subscriber 2. There is nothing where
/// there is no such image.
pub fn run_streamed<R: Threads + Sync>(
    threads: &R,
    alloc: Global,
    sizes: &Sizes,
) -> Result<Option<Streamed>, AllocError> {
    let Some(opened) = new_image(alloc, sizes) else {
        return Ok(None);
    };
    let image = opened.back.into_medium().content().to_vec(alloc)?;
    let medium = medium_of(alloc, image)?;
    let mut files = update_files(alloc)?;
    let gate = LineGate::new(alloc, 2)?;
    let taken = MemSink::new(alloc, ROOM, CHUNK, Vec::new(alloc))?;
    let mut sink = LineSink::new(taken, &gate);
    let words = words_of_stream(alloc)?;
    let ended = dude_watched(threads, alloc, &words, medium, &mut files, &mut sink, &gate);
    Ok(Some(Streamed {
        status: ended.status,
        printed: sink.inner().bytes().to_vec(alloc)?,
        lines: (gate.lines_of(0), gate.lines_of(1)),
        was_met: gate.was_met(),
    }))
}

/// A medium that is settled at these words.
fn medium_of(alloc: Global, image: Vec<u64>) -> Result<MemPmem, AllocError>
    ensures settled { IfOk result (λ medium. IsAtRest (sight medium)) }
{
    let medium = MemPmem::new(alloc, image, BUDGET, Vec::new(alloc))?;
    Ok(medium)
}

/// The command's words.
fn words_of_stream(alloc: Global) -> Result<Vec<RcStr>, AllocError> {
    let mut words = Vec::new(alloc);
    for word in WORDS {
        words.push(RcStr::from_str(alloc, word)?)?;
    }
    Ok(words)
}

/// The files of the command, each of so many updates of one subscriber, to place 1, 2 and so on.
fn update_files(alloc: Global) -> Result<MemFiles, AllocError> {
    let mut files = Vec::new(alloc);
    for (name, subscriber) in [("a", 1_u64), ("b", 2)] {
        files.push(MemFile {
            name: String::from_str(alloc, name)?,
            bytes: updates_of(alloc, subscriber)?,
        })?;
    }
    MemFiles::new(files, CHUNK, Vec::new(alloc))
}

/// The lines of so many updates of this subscriber.
fn updates_of(alloc: Global, subscriber: u64) -> Result<Vec<u8>, AllocError> {
    let mut text = Vec::new(alloc);
    for place in 1..=UPDATES {
        let line = format!(in alloc; "UPDATE_LOCATION,{subscriber:015},{place}\n")?;
        text.extend_from_slice(line.as_bytes())?;
    }
    Ok(text)
}
