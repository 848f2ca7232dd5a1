//! The words of an image file in memory, and the lines that were noted.

ghost use Rattle.dude_io.specs.FileWords.{AreStored};
ghost use Rattle.std.specs.Prelude.{◌≡◌, ◌≤◌, vec_len, vec_capacity};

use crate::file_words::FileWords;
use crate::image_file::{self, SPAN_BYTES};
use crate::line::Line;
use std::alloc::{AllocError, Global};
use std::io;
use std::os::unix::fs::FileExt;

/// Lines for which there is room among the notes.
const NOTES: usize = 4096;

/// The words of an image file in memory, the lines that were noted and are not yet in the file, in order, and the bytes by
/// way of which they are written. It takes no memory after it is made.
#[derive(Drop)]
pub struct WriteCache {
    pub words: FileWords,
    pub noted: Vec<Line>,
    pub through: Vec<u8>,
    ghost within: { vec_len noted ≤ 4096 },
    ghost reserved: { 4096 ≤ vec_capacity noted },
    ghost stored: { AreStored noted.items words },
    ghost wide: { vec_len through ≡ 65536 },
}

impl WriteCache {
    ghost use Rattle.dude_io.specs.FileWords.{words_of};
    ghost use Rattle.dude_io.specs.WriteCache.{note_room, NotesOwnLine};
    ghost use Rattle.std.specs.Prelude.{◌≡◌, ◌+◌, ◌-◌, ◌*◌, ◌<◌, ◌≤◌, [], IfOk, slice_index, slice_set, ◌==◌};

    /// These words, with no line noted and room for the notes.
    pub(crate) fn new(alloc: Global, words: FileWords) -> Result<WriteCache, AllocError>
        ensures words { IfOk result (λ cache. cache.words ≡ words) }
        ensures noted { IfOk result (λ cache. cache.noted.items ≡ []) }
        ensures room { IfOk result (λ cache. note_room cache ≡ 4096) }
    {
        let noted = Vec::with_capacity(alloc, NOTES)?;
        let through = vec![in alloc; 0; SPAN_BYTES]?;
        Ok(WriteCache {
            words,
            noted,
            through,
        })
    }

    pub(crate) fn len(&self) -> u64
        ensures { result ≡ self.now.words.count }
    {
        self.words.count
    }

    pub(crate) fn word(&self, at: u64) -> u64
        requires { at < self.now.words.count }
        ensures { result ≡ slice_index (words_of self.now.words) at }
    {
        self.words.get(at)
    }

    pub(crate) fn set(&mut self, at: u64, value: u64)
        requires { at < self.old.words.count }
        ensures words { words_of self.new.words ≡ slice_set (words_of self.old.words) at value }
        ensures len { self.new.words.count ≡ self.old.words.count }
        ensures noted { self.new.noted.items ≡ self.old.noted.items }
    {
        self.words.set(at, value);
    }

    /// Whether there is no room for a further note.
    pub(crate) fn is_full(&self) -> bool
        ensures { result ≡ (note_room self.now == 0) }
    {
        self.noted.len() == NOTES
    }

    /// Notes the values that the words of a line hold. There is room for the note.
    pub(crate) fn note(&mut self, number: u64)
        requires inside { 8 * number + 8 ≤ self.old.words.count }
        requires room { 0 < note_room self.old }
        ensures noted { NotesOwnLine number self.old self.new }
        ensures room { note_room self.new ≡ note_room self.old - 1 }
        ensures words { words_of self.new.words ≡ words_of self.old.words }
        ensures len { self.new.words.count ≡ self.old.words.count }
    {
        let line = self.words.line(number);
        self.noted.push_reserved(line);
    }

    /// Writes the noted lines, and doesn't sync them.
    pub(crate) fn write<F: FileExt>(&mut self, file: &F) -> io::Result<()>
        ensures words { self.new.words ≡ self.old.words }
        ensures noted { self.new.noted ≡ self.old.noted }
    {
        let lines = self.noted.as_slice();
        image_file::write_lines(file, lines, &self.words, self.through.as_mut_slice())
    }

    pub(crate) fn drop_notes(&mut self)
        ensures noted { self.new.noted.items ≡ [] }
        ensures room { note_room self.new ≡ 4096 }
        ensures words { self.new.words ≡ self.old.words }
    {
        self.noted.clear();
    }
}
