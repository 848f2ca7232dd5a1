//! What is printed, line by line.

use std::alloc::Global;
use tatp_model::Done;
use tatp_text::{push_number, write_done};

/// The least word that prints in base sixteen: most words from it on pack several fields.
const PACKED: u64 = 65_536;

/// Lines that are to be printed. Where there is no memory for one, the page is cut off.
#[derive(Drop)]
pub struct Page {
    text: Vec<u8>,
    is_cut: bool,
}

impl Page {
    /// An empty page.
    pub fn new(alloc: Global) -> Page {
        Page {
            text: Vec::new(alloc),
            is_cut: false,
        }
    }

    /// The text of the page, or `None` where it is cut off.
    pub fn text(&self) -> Option<&[u8]> {
        if self.is_cut { None } else { Some(&self.text) }
    }

    /// Cuts the page off, for want of memory.
    pub fn cut(&mut self) {
        self.is_cut = true;
    }

    /// Appends a text.
    pub fn put(&mut self, text: &[u8]) {
        if self.text.extend_from_slice(text).is_err() {
            self.is_cut = true;
        }
    }

    /// Appends a number.
    pub fn put_number(&mut self, number: u64) {
        if push_number(number, &mut self.text).is_err() {
            self.is_cut = true;
        }
    }

    /// Appends numbers, each behind a space.
    pub fn put_numbers(&mut self, numbers: &[u64]) {
        for number in numbers {
            self.put(b" ");
            self.put_number(*number);
        }
    }

    /// Appends a word.
    pub fn put_word(&mut self, word: u64) {
        if word < PACKED {
            return self.put_number(word);
        }
        match format!(in *self.text.allocator(); "{word:#x}") {
            Ok(text) => self.put(text.as_bytes()),
            Err(_) => self.is_cut = true,
        }
    }

    /// Appends a word with its place.
    pub fn put_pair(&mut self, place: u64, word: u64) {
        self.put_numbers(&[place]);
        self.put(b"=");
        self.put_word(word);
    }

    /// Appends the line of a request that is done.
    pub fn done(&mut self, done: &Done) {
        if write_done(done, &mut self.text).is_err() {
            self.is_cut = true;
        }
    }

    /// Appends a line.
    pub fn line(&mut self, text: &str) {
        self.put(text.as_bytes());
        self.put(b"\n");
    }

    /// Appends a line of a name and numbers.
    pub fn numbers(&mut self, name: &str, numbers: &[u64]) {
        self.put(name.as_bytes());
        self.put_numbers(numbers);
        self.put(b"\n");
    }
}
