//! How an image file is opened, made, read and written (trusted).

ghost use Rattle.dude_io.specs.FileWords.{words_of, AreStored};
ghost use Rattle.dude_io.specs.Line.{IsSpan, FillsSpan, lines_spanned};
ghost use Rattle.std.specs.Prelude.{◌≡◌, ◌+◌, ◌*◌, ◌<◌, ◌≤◌, IsTrue, length, take};

use crate::edge_fault::EdgeFault;
use crate::file_words::FileWords;
use crate::line::{BYTES, Line};
use crate::lock::Lock;
use std::alloc::Global;
use std::fs::{File, OpenFile, OpenOptions};
use std::io::{Read, Write};
use std::os::unix::fs::FileExt;
use std::path::Path;
use std::rt::Files as FileSystem;
use std::{fs, io};

/// Bytes of a new image.
const NEW_BYTES: usize = 33_554_432;

const PIECE: usize = 65_536;

/// The most lines that are written at once, and the bytes of so many.
const SPAN: u64 = 1024;

pub(crate) const SPAN_BYTES: usize = SPAN as usize * BYTES;

/// A line is written at once with one that lies no more lines before it. A call costs about as much as their bytes.
const NEAR: u64 = 32;

/// How many names are tried for a file that is being made.
const NAMES: u64 = 100;

/// Opens the image, and makes it where there is no file. Nothing is read from one that another process has open. What is
/// read from it later is on the disk.
pub(crate) fn open<R: FileSystem + AllocGlobal>(rt: &R, name: &str) -> Result<R::File, EdgeFault>
where
    R::File: Lock,
{
    let file = match open_old(rt, name) {
        Err(error) if error.kind() == io::ErrorKind::NotFound => {
            make(rt, name)?;
            open_old(rt, name)?
        }
        found => found?,
    };
    if !file.metadata()?.is_file() {
        return Err(EdgeFault::Failed);
    }
    file.try_lock()?;
    file.sync_all()?;
    Ok(past_streams(file)?)
}

/// The file at a place behind the standard streams. What is meant for a stream that was closed must not land in it.
fn past_streams<F: OpenFile + Drop>(file: F) -> io::Result<F> {
    match file.try_clone() {
        Err(error) if error.kind() == io::ErrorKind::Unsupported => Ok(file),
        clone => clone,
    }
}

fn open_old<R: FileSystem>(rt: &R, name: &str) -> io::Result<R::File> {
    OpenOptions::new().read(true).write(true).open(rt, name)
}

/// Makes the image under a name of its own beside it, and gives it its name once it is whole and on the disk. Where another
/// process made it meanwhile, that one stays.
fn make<R: FileSystem + AllocGlobal>(rt: &R, name: &str) -> Result<(), EdgeFault> {
    for attempt in 0..NAMES {
        let fresh = format!(in rt.alloc(); "{name}.new{attempt}")?;
        match File::create_new(rt, fresh.as_str()) {
            Ok(file) => return Ok(place(rt, file, fresh.as_str(), name)?),
            Err(error) if error.kind() == io::ErrorKind::AlreadyExists => {}
            Err(error) => return Err(error.into()),
        }
    }
    Err(EdgeFault::Failed)
}

/// Fills a new file, gives it a second name, and takes the first one away.
fn place<R: FileSystem>(rt: &R, mut file: R::File, fresh: &str, name: &str) -> io::Result<()> {
    let placed = match fill(&mut file) {
        Ok(()) => match fs::hard_link(rt, fresh, name) {
            Err(error) if error.kind() == io::ErrorKind::AlreadyExists => Ok(()),
            linked => linked,
        },
        failed => failed,
    };
    let _ = fs::remove_file(rt, fresh);
    placed?;
    sync_folder(rt, name)
}

fn fill<F: Write + OpenFile>(file: &mut F) -> io::Result<()> {
    let zeros = [0; PIECE];
    for _ in 0..NEW_BYTES / PIECE {
        file.write_all(&zeros)?;
    }
    file.sync_all()
}

/// Makes the name of a file durable.
fn sync_folder(rt: &impl FileSystem, name: &str) -> io::Result<()> {
    match Path::new(name).parent() {
        Some(folder) if !folder.as_str().is_empty() => fs::open(rt, folder)?.sync_all(),
        _ => fs::open(rt, ".")?.sync_all(),
    }
}

/// The whole words of a file. What stands behind them is not read.
pub(crate) fn read_words<F: Read + OpenFile>(
    alloc: Global,
    file: &mut F,
) -> Result<FileWords, EdgeFault> {
    let count = file.metadata()?.len() / 8;
    let mut words = FileWords::with_capacity(alloc, count)?;
    let mut piece = [0; PIECE];
    while words.count < count {
        let left = count - words.count;
        let bytes = &mut piece[..8 * left.min(PIECE as u64 / 8) as usize];
        file.read_exact(bytes)?;
        words.append(bytes);
    }
    Ok(words)
}

/// Writes the lines in order, and doesn't sync them. Lines near one another in the file are written at once, by way of these
/// bytes, and with them those that lie between, as the words have them.
pub(crate) fn write_lines<F: FileExt>(
    file: &F,
    lines: &[Line],
    words: &FileWords,
    through: &mut [u8],
) -> io::Result<()>
    requires stored { AreStored lines.now words.now }
    requires room { length through.old ≡ 65536 }
{
    let mut rest = lines;
    while !rest.is_empty() {
        let count = span_length(rest);
        write_span(file, &rest[..count], words, through)?;
        rest = &rest[count..];
    }
    Ok(())
}

/// Writes what lies from the first of these lines to the last one.
fn write_span<F: FileExt>(
    file: &F,
    lines: &[Line],
    words: &FileWords,
    through: &mut [u8],
) -> io::Result<()>
    requires span { IsSpan lines.now }
    requires stored { AreStored lines.now words.now }
    requires room { length through.old ≡ 65536 }
{
    let span = &mut through[..BYTES * lines_over(lines)];
    fill_span(lines, words, span);
    file.write_all_at(span, BYTES as u64 * lines[0].number)
}

/// How many of the first lines are written at once.
fn span_length(lines: &[Line]) -> usize
    requires { 0 < length lines.now }
    ensures within { result ≤ length lines.now }
    ensures span { IsSpan (take result lines.now) }
{
    let first = lines[0].number;
    let mut last = first;
    let mut count = 1;
    while count < lines.len() && is_near(first, last, lines[count].number) {
        last = lines[count].number;
        count += 1;
    }
    count
}

/// Whether a line is written at once with the first and the last one before it.
fn is_near(first: u64, last: u64, line: u64) -> bool
    requires { first ≤ last }
    ensures { IsTrue result → (last < line) × (line < first + 1024) }
{
    last < line && line - last <= NEAR && line - first < SPAN
}

/// How many lines there are from the first of these to the last one.
fn lines_over(lines: &[Line]) -> usize
    requires { IsSpan lines.now }
    ensures over { result ≡ lines_spanned lines.now }
    ensures most { result ≤ 1024 }
{
    (lines[lines.len() - 1].number - lines[0].number) as usize + 1
}

/// Stores the bytes from the first of these lines to the last one.
fn fill_span(lines: &[Line], words: &FileWords, into: &mut [u8])
    requires span { IsSpan lines.now }
    requires stored { AreStored lines.now words.now }
    requires size { length into.old ≡ 64 * lines_spanned lines.now }
    ensures { FillsSpan lines.now (words_of words.now) into.new }
{
    let first = lines[0].number;
    words.copy_lines(first, into.len() / BYTES, into);
    for line in lines {
        let start = BYTES * (line.number - first) as usize;
        line.store(&mut into[start..start + BYTES]);
    }
}
