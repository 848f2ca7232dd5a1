//! The lines of a script.

use crate::calls::say_call;
use crate::checks::{say_accepted, say_check, say_steps};
use crate::home::{new_home, say_changes, say_in_image, say_places, serve_each};
use crate::images::say_open;
use crate::page::Page;
use crate::records::{say_reads, say_record, say_redo};
use crate::rows::say_records;
use crate::runs::{Files, say_in_files};
use crate::stopping::Stopping;
use crate::stops::say_stops;
use crate::trees::say_tree_calls;
use crate::words::{changed, say_words};
use script_words::{is_remark, numbers_of, words_of};
use std::alloc::Global;
use tatp_csv::read_requests;
use tatp_layout::Layout;
use word_space::flat::Flat;
use word_space::stop::Stop;

/// What the lines of a script work on: words, the home that they are, if they are one, and request files.
#[derive(Drop)]
pub struct Play {
    words: Stopping,
    lay: Option<Layout>,
    files: Files,
}

/// Words that no call stops.
fn unstopped(words: Vec<u64>) -> Stopping {
    Stopping::new(Flat::new(words), u64::MAX, Stop::NoMemory)
}

impl Play {
    /// No words yet, and empty files.
    pub fn new(alloc: Global) -> Play {
        Play {
            words: unstopped(Vec::new(alloc)),
            lay: None,
            files: Files::new(alloc),
        }
    }

    /// Prints a remark again, and carries out another line.
    pub fn take_line(&mut self, alloc: Global, line: &str, page: &mut Page) {
        if is_remark(line) {
            return page.line(line);
        }
        let Ok(words) = words_of(alloc, line) else {
            return page.cut();
        };
        let Some((name, others)) = words.split_first() else {
            return;
        };
        match numbers_of(alloc, others) {
            Ok(Some(numbers)) => self.take_command(alloc, name, &numbers, page),
            Ok(None) => self.files.append(name, others, page),
            Err(_) => page.cut(),
        }
    }

    /// Commands that make words or a home, and those that need neither.
    fn take_command(&mut self, alloc: Global, name: &str, numbers: &[u64], page: &mut Page) {
        match (name, numbers) {
            ("home", sizes) => {
                if let Some((lay, words)) = new_home(alloc, sizes, page) {
                    self.lay = Some(lay);
                    self.words = unstopped(words);
                }
            }
            ("array", [count, value, changes @ ..]) => {
                match vec![in alloc; *value; (*count).min(1_000) as usize] {
                    Ok(words) => self.set(alloc, &words, changes, page),
                    Err(_) => page.cut(),
                }
            }
            ("set", changes) => match self.words.flat.words().to_vec(alloc) {
                Ok(words) => self.set(alloc, &words, changes, page),
                Err(_) => page.cut(),
            },
            ("files", []) => self.files = Files::new(alloc),
            ("locations", &[first, last]) => self.files.append_updates(first, last, false, page),
            ("subscribers", &[first, last]) => self.files.append_updates(first, last, true, page),
            ("order", done) => say_in_files(alloc, done, page),
            ("tree", &[leaves, seed, calls]) => say_tree_calls(alloc, leaves, seed, calls, page),
            _ => self.take_on_words(alloc, name, numbers, page),
        }
    }

    /// Takes these words, changed at some places, for its own.
    fn set(&mut self, alloc: Global, words: &[u64], changes: &[u64], page: &mut Page) {
        match changed(alloc, words, changes) {
            Ok(words) => self.words = unstopped(words),
            Err(_) => page.cut(),
        }
    }

    /// Commands on the words, whatever they are.
    fn take_on_words(&mut self, alloc: Global, name: &str, numbers: &[u64], page: &mut Page) {
        let flat = &mut self.words.flat;
        match (name, numbers) {
            ("words", places) => say_words(flat.words(), places, page),
            ("record", [number, writes @ ..]) => say_record(*number, writes, page),
            ("reads", reads) => say_reads(alloc, reads, page),
            ("wide", [at]) => page.line(if flat.is_wide(*at) {
                "one word too many"
            } else {
                "room"
            }),
            // The pending writes are made, or forgotten.
            ("commit", [number]) => say_redo(&flat.take(*number), page),
            ("forget", []) => flat.forget(),
            _ => match self.lay {
                Some(lay) => self.take_at_home(alloc, &lay, name, numbers, page),
                None => self.call(alloc, name, numbers, page),
            },
        }
    }

    /// Commands on a home, and requests.
    fn take_at_home(
        &mut self,
        alloc: Global,
        lay: &Layout,
        name: &str,
        numbers: &[u64],
        page: &mut Page,
    ) {
        let flat = &mut self.words.flat;
        match name {
            "image" => say_in_image(lay, numbers, page),
            "places" => say_places(lay, page),
            "changes" => say_changes(alloc, lay, flat.words(), page),
            "check" => say_check(alloc, lay, flat.words(), numbers, false, page),
            "tables" => say_check(alloc, lay, flat.words(), numbers, true, page),
            "accepted" => say_accepted(alloc, lay, flat.words(), numbers, page),
            "records" => say_records(lay, flat, numbers, page),
            "run" => self.files.say_run(alloc, lay, flat.words(), page),
            "bundles" => self.files.say_bundles(alloc, lay, flat.words(), page),
            "open" => say_open(alloc, lay, flat.words(), numbers, page),
            "images" => match *numbers {
                [every, last] => self
                    .files
                    .say_images(alloc, lay, flat.words(), every, last, page),
                _ => page.line("not run"),
            },
            "failing" => self
                .files
                .say_failing(alloc, lay, flat.words(), numbers, page),
            "steps" => match read_requests(alloc, &self.files.first) {
                Ok(requests) => say_steps(alloc, lay, flat.words(), &requests, page),
                Err(_) => page.line("no command"),
            },
            _ => match read_requests(alloc, name.as_bytes()) {
                Ok(requests) => serve_each(lay, flat, &requests, page),
                Err(_) => self.call(alloc, name, numbers, page),
            },
        }
    }

    /// Makes a call on the words, or each of its stops in turn.
    fn call(&mut self, alloc: Global, name: &str, numbers: &[u64], page: &mut Page) {
        match name.strip_prefix("each-") {
            Some(name) => say_stops(alloc, self.words.flat.words(), name, numbers, page),
            None => say_call(&mut self.words, name, numbers, page),
        }
    }
}
