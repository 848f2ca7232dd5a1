//! Audits of printed runs, from a new database of one subscriber on.

use crate::files::world_of;
use crate::page::push_count;
use crate::population::one_subscriber;
use crate::stop::Stop;
use command_edges::read_files;
use dude_audit::{Verdict, audit};
use dude_io::MemFile;
use std::alloc::{AllocError, Global};

/// How many call rows may stand.
const CALLS: u64 = 12;

/// Whether the text is what a run of the files prints behind this number, or the line that isn't.
pub fn judge(
    files: &[MemFile],
    number: u64,
    printed: &[u8],
    out: &mut Vec<u8>,
) -> Result<(), Stop> {
    let alloc = *out.allocator();
    let tables = one_subscriber(alloc)?;
    let mut names = Vec::new(alloc);
    for file in files {
        names.push(file.name.as_str())?;
    }
    let mut world = world_of(files, &[], out)?;
    let Ok(lists) = read_files(alloc, &names, &mut world) else {
        return Err(Stop::NoCommand);
    };
    match audit(alloc, &tables, CALLS, number, &lists, printed)? {
        Verdict::Yes => Ok(out.extend_from_slice(b"yes\n")?),
        Verdict::No { line } => Ok(push_count("line", line, out)?),
    }
}

/// The text with a piece in place of the byte at this place.
pub fn changed(
    alloc: Global,
    text: &[u8],
    place: usize,
    piece: &[u8],
) -> Result<Vec<u8>, AllocError> {
    let (before, from) = text.split_at(place.min(text.len()));
    let behind = match from {
        [_, behind @ ..] => behind,
        [] => from,
    };
    let mut changed = Vec::from_slice(alloc, before)?;
    changed.extend_from_slice(piece)?;
    changed.extend_from_slice(behind)?;
    Ok(changed)
}
