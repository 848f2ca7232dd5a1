//! Files and sinks, in memory and of the system.

ghost use Rattle.std.specs.Prelude.{◌≤◌};

use crate::say::say_done;
use dude_io::{
    FileFault, FileText, MemFile, MemFiles, MemSink, RealFiles, RealSink, read_file, write_all,
};
use std::alloc::{AllocError, Global};
use std::io;

/// These lines, each with its end.
pub fn text_of(alloc: Global, lines: &[&str]) -> Result<String, AllocError> {
    let mut text = String::new(alloc);
    for line in lines {
        text.push_str(line)?;
        text.push_str("\n")?;
    }
    Ok(text)
}

/// Reads a file in memory, and prints what was read: the numbers are the limit of bytes, how many a read gives at most, at
/// least one, and the reads that fail.
pub fn say_text(
    rt: HostRuntime,
    texts: &[(String, String)],
    name: &str,
    numbers: &[u64],
) -> io::Result<()> {
    match numbers {
        [limit, chunk, fail @ ..] if *chunk >= 1 => {
            let mut files = files_of(rt.alloc(), texts, *chunk, fail)?;
            say_read(rt, read_file(rt.alloc(), &mut files, name, *limit))
        }
        _ => rt.println("no command"),
    }
}

/// Reads a file on disk, and prints what was read.
pub fn say_disk(rt: HostRuntime, name: &str, limit: u64) -> io::Result<()> {
    let mut files = RealFiles::new(rt);
    say_read(rt, read_file(rt.alloc(), &mut files, name, limit))
}

/// Prints what was read: how many bytes and the text, or why there is none.
fn say_read(rt: HostRuntime, found: Result<FileText, FileFault>) -> io::Result<()> {
    match found {
        Ok(FileText::Whole(bytes)) => say_bytes(rt, &bytes),
        Ok(FileText::TooLong) => rt.println("too long"),
        Err(FileFault::Failed) => rt.println("failed"),
        Err(FileFault::NoMemory) => rt.println("no memory"),
    }
}

/// Prints how many bytes these are, and the text.
fn say_bytes(rt: HostRuntime, bytes: &[u8]) -> io::Result<()> {
    let count = bytes.len();
    let text = String::from_utf8_lossy(rt.alloc(), bytes)?;
    println!(rt; "{count} bytes {text:?}")
}

/// Files in memory of these names and texts, of which a read gives so many bytes at most.
fn files_of(
    alloc: Global,
    texts: &[(String, String)],
    chunk: u64,
    fail: &[u64],
) -> Result<MemFiles, AllocError>
    requires { 1 ≤ chunk }
{
    let mut files = Vec::new(alloc);
    for (name, text) in texts {
        files.push(MemFile {
            name: name.clone()?,
            bytes: text.as_bytes().to_vec(alloc)?,
        })?;
    }
    MemFiles::new(files, chunk, fail.to_vec(alloc)?)
}

/// Writes a line to a sink in memory, and prints whether it was taken whole, and what was taken: the numbers are the bytes of
/// room, how many a write takes at most, at least one, and the writes that fail.
pub fn say_sink(rt: HostRuntime, line: &str, numbers: &[u64]) -> io::Result<()> {
    match numbers {
        [room, chunk, fail @ ..] if *chunk >= 1 => {
            let mut sink = MemSink::new(rt.alloc(), *room, *chunk, fail.to_vec(rt.alloc())?)?;
            say_written(rt, &mut sink, line)
        }
        _ => rt.println("no command"),
    }
}

/// Writes a line to a sink, and prints whether it was taken whole, and what was taken.
fn say_written(rt: HostRuntime, sink: &mut MemSink, line: &str) -> io::Result<()> {
    let text = text_of(rt.alloc(), &[line])?;
    say_done(rt, write_all(sink, text.as_bytes()))?;
    say_bytes(rt, sink.bytes())
}

/// Writes a line to standard output, and prints whether it was taken whole.
pub fn say_output(rt: HostRuntime, line: &str) -> io::Result<()> {
    let text = text_of(rt.alloc(), &[line])?;
    say_done(rt, write_all(&mut RealSink::new(rt), text.as_bytes()))
}
