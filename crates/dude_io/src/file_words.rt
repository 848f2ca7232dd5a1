//! The words of a file, of which the last ones may be 0 without being stored.

ghost use Rattle.dude_io.specs.Bytes.{words_in};
ghost use Rattle.std.specs.Int.{from_le_bytes};
ghost use Rattle.std.specs.Prelude.{◌≡◌, ◌/◌, ◌++◌, ◌+◌, ◌^◌, ◌<◌, ◌≤◌, IsTrue, length, replicate, vec_len, vec_capacity};

use crate::line::{self, Line, WORDS};
use std::alloc::{AllocError, Global};

/// The words of a file. Those behind the last piece of the file that isn't 0 alone are not stored: they take no memory
/// before they are put.
#[derive(Drop)]
pub struct FileWords {
    pub stored: Vec<u64>,
    pub count: u64,
    ghost within: { vec_len stored ≤ count },
    ghost reserved: { count ≤ vec_capacity stored },
    ghost small: { count < 2 ^ 61 },
}

impl FileWords {
    ghost use Rattle.dude_io.specs.Bytes.{words_in};
    ghost use Rattle.dude_io.specs.FileWords.{words_of};
    ghost use Rattle.dude_io.specs.Line.{IsLineOf, lines_bytes};
    ghost use Rattle.std.specs.Prelude.{◌≡◌, ◌+◌, ◌*◌, ◌/◌, ◌^◌, ◌<◌, ◌≤◌, ◌++◌, [], IfOk, length, slice_index, slice_set, vec_len, vec_capacity};

    /// No words yet, and room for so many.
    pub(crate) fn with_capacity(alloc: Global, most: u64) -> Result<FileWords, AllocError>
        ensures words { IfOk result (λ made. words_of made ≡ []) }
        ensures none { IfOk result (λ made. made.count ≡ 0) }
        ensures room { IfOk result (λ made. vec_capacity made.stored ≡ most) }
    {
        Ok(FileWords {
            stored: Vec::with_capacity(alloc, most as usize)?,
            count: 0,
        })
    }

    /// Adds the words that these bytes are. There is room for them.
    pub(crate) fn append(&mut self, bytes: &[u8])
        requires room { self.old.count + length bytes.now / 8 ≤ vec_capacity self.old.stored }
        requires small { self.old.count + length bytes.now / 8 < 2 ^ 61 }
        ensures words { words_of self.new ≡ words_of self.old ++ words_in bytes.now }
        ensures count { self.new.count ≡ self.old.count + length bytes.now / 8 }
        ensures capacity { vec_capacity self.new.stored ≡ vec_capacity self.old.stored }
    {
        let more = (bytes.len() / 8) as u64;
        if are_zero(bytes) {
            self.count += more;
        } else {
            self.cover(self.count);
            self.count += more;
            append_words(&mut self.stored, bytes);
        }
    }

    /// Stores the words before this one, also those that are 0.
    fn cover(&mut self, end: u64)
        requires { end ≤ self.old.count }
        ensures words { words_of self.new ≡ words_of self.old }
        ensures covered { end ≤ vec_len self.new.stored }
        ensures grows { vec_len self.old.stored ≤ vec_len self.new.stored }
        ensures count { self.new.count ≡ self.old.count }
        ensures capacity { vec_capacity self.new.stored ≡ vec_capacity self.old.stored }
    {
        while (self.stored.len() as u64) < end {
            self.stored.push_reserved(0);
        }
    }

    pub(crate) fn get(&self, at: u64) -> u64
        requires { at < self.now.count }
        ensures { result ≡ slice_index (words_of self.now) at }
    {
        if at < self.stored.len() as u64 {
            self.stored[at as usize]
        } else {
            0
        }
    }

    pub(crate) fn set(&mut self, at: u64, value: u64)
        requires { at < self.old.count }
        ensures words { words_of self.new ≡ slice_set (words_of self.old) at value }
        ensures grows { vec_len self.old.stored ≤ vec_len self.new.stored }
        ensures count { self.new.count ≡ self.old.count }
    {
        self.cover(at + 1);
        self.stored[at as usize] = value;
    }

    /// The line of this number.
    pub(crate) fn line(&mut self, number: u64) -> Line
        requires { 8 * number + 8 ≤ self.old.count }
        ensures line { IsLineOf (words_of self.old) number result }
        ensures words { words_of self.new ≡ words_of self.old }
        ensures stored { 8 * number + 8 ≤ vec_len self.new.stored }
        ensures grows { vec_len self.old.stored ≤ vec_len self.new.stored }
        ensures count { self.new.count ≡ self.old.count }
    {
        let words = WORDS as u64;
        self.cover(words * number + words);
        Line::of(&self.stored, number)
    }

    /// Writes so many lines as bytes, from this one on. They are stored.
    pub(crate) fn copy_lines(&self, first: u64, count: usize, into: &mut [u8])
        requires stored { 8 * (first + count) ≤ vec_len self.now.stored }
        requires size { length into.old ≡ 64 * count }
        ensures { into.new ≡ lines_bytes first count (words_of self.now) }
    {
        let start = WORDS * first as usize;
        line::store_words(&self.stored[start..start + WORDS * count], into);
    }
}

/// Whether the words that these bytes are, are 0.
fn are_zero(bytes: &[u8]) -> bool
    ensures { IsTrue result → words_in bytes.now ≡ replicate (length bytes.now / 8) 0 }
{
    for word in bytes.as_chunks::<8>().0 {
        if u64::from_le_bytes(*word) != 0 {
            return false;
        }
    }
    true
}

/// Appends the words that these bytes are, for which there is room.
fn append_words(words: &mut Vec<u64>, bytes: &[u8])
    requires { vec_len words.old + length bytes.now / 8 ≤ vec_capacity words.old }
    ensures items { words.new.items ≡ words.old.items ++ words_in bytes.now }
    ensures len { vec_len words.new ≡ vec_len words.old + length bytes.now / 8 }
    ensures capacity { vec_capacity words.new ≡ vec_capacity words.old }
{
    for word in bytes.as_chunks::<8>().0 {
        words.push_reserved(u64::from_le_bytes(*word));
    }
}
