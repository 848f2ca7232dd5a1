//! A file without requests, whose worker takes turns for the others.

ghost use Rattle.dude_program.specs.Turner.{HasTurner};

use dude_base::sizes::Sizes;
use std::alloc::Global;
use std::thread;
use std::thread::Threads;
use tatp_model::Request;

/// From how many requests of a file on one more thread is worth its start.
const WORTH: usize = 1024;

// Whether a file has so many requests that one more thread is worth its start.
fn has_many(files: &[Vec<Request>]) -> bool {
    files.iter().any(|requests| requests.len() >= WORTH)
}

// Whether there are more processors than so many workers have.
fn has_processor<R: Threads>(rt: &R, workers: usize) -> bool {
    match thread::available_parallelism(rt) {
        Ok(processors) => processors.get() > workers,
        Err(_) => false,
    }
}

// Whether one more thread is worth its start, where each page has a frame or not. Where pages come and go the others need the
// turn themselves.
fn is_worth<R: Threads>(rt: &R, files: &[Vec<Request>], has_frames: bool) -> bool {
    has_frames && has_many(files) && has_processor(rt, files.len())
}

/// Puts a file without requests behind the others, where there is a ring and a processor for it, a frame for each page, and a file
/// with many requests: its worker takes turns for them, while they serve requests. Where there is no memory for it nothing is put.
pub(crate) fn with_turner<R: Threads>(
    rt: &R,
    alloc: Global,
    lists: Vec<Vec<Request>>,
    sizes: &Sizes,
    frames: u64,
) -> Vec<Vec<Request>>
    ensures { HasTurner sizes.now.rings lists.items result.items }
{
    let mut files = lists;
    let rings = sizes.rings;
    if (files.len() as u64) < rings && is_worth(rt, &files, frames == sizes.pages) {
        let _added = files.push(Vec::new(alloc));
    }
    files
}
