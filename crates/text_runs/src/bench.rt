//! What a script remembers from one command to the next.

use crate::audits::{changed, judge};
use crate::faults::faults;
use crate::files::{files, reads, shared, world_of};
use crate::numbers::{dump, last, load};
use crate::page::{page_of, push_count};
use crate::replies::done_of;
use crate::requests::read;
use crate::stop::Stop;
use crate::streams::{lane, stream};
use crate::text::{numbers_among, text_of};
use crate::words::words;
use command_edges::{Fault, fault_text, print_lines, print_text};
use dude_io::{MemFile, MemSink};
use script_words::{is_remark, words_of};
use std::alloc::{AllocError, Global};
use tatp_model::Done;
use tatp_text::{MAX_BYTES, MAX_RECORDS, write_done, write_summary};

/// What a script remembers from one command to the next.
#[derive(Drop)]
pub struct Bench {
    alloc: Global,
    /// The requests that were served, with their replies.
    served: Vec<Done>,
    /// The files of a command.
    files: Vec<MemFile>,
    /// What output goes to.
    sink: MemSink,
    /// What a run printed.
    printed: Vec<u8>,
}

impl Bench {
    /// A bench on which nothing was done, with a sink that has no room.
    pub fn new(alloc: Global) -> Result<Bench, AllocError> {
        Ok(Bench {
            alloc,
            served: Vec::new(alloc),
            files: Vec::new(alloc),
            sink: MemSink::new(alloc, 0, 1, Vec::new(alloc))?,
            printed: Vec::new(alloc),
        })
    }

    /// What is printed for a line: a remark as it stands, or what a command gave.
    pub fn answer(&mut self, line: &str) -> Result<String, AllocError> {
        if is_remark(line) {
            return format!(in self.alloc; "{line}\n");
        }
        let mut out = Vec::from_slice(self.alloc, b"> ")?;
        match self.carry_out(&words_of(self.alloc, line)?, &mut out) {
            Ok(()) => page_of(self.alloc, &out),
            Err(Stop::NoCommand) => String::from_str(self.alloc, "no command\n"),
            Err(Stop::NoMemory) => Err(AllocError),
        }
    }

    /// Carries out a command, of which the first word is the name, and appends what it gave.
    fn carry_out(&mut self, line: &[&str], out: &mut Vec<u8>) -> Result<(), Stop> {
        let [name, behind @ ..] = line else {
            return Err(Stop::NoCommand);
        };
        let numbers = numbers_among(self.alloc, behind)?;
        match *name {
            "read" => read(&text_of(self.alloc, behind)?, out),
            "load" => load(&numbers, out),
            "dump" => dump(&numbers, out),
            "last" => last(&numbers, out),
            "words" => words(behind, out),
            "faults" => Ok(faults(out)?),
            "limits" => limits(out),
            _ => self.carry_on(name, behind, &numbers, out),
        }
    }

    /// Carries out a command of which something is remembered.
    fn carry_on(
        &mut self,
        name: &str,
        words: &[&str],
        numbers: &[u64],
        out: &mut Vec<u8>,
    ) -> Result<(), Stop> {
        match name {
            "forget" => self.forget(out),
            "served" => self.serve(words, numbers, out),
            "again" => self.serve_again(numbers, out),
            "summary" => Ok(write_summary(&self.served, out)?),
            "file" => self.add_file(words, out),
            "files" => files(
                world_of(&self.files, numbers, out)?,
                &names_among(self.alloc, words)?,
                out,
            ),
            "reads" => reads(
                world_of(&self.files, numbers, out)?,
                &names_among(self.alloc, words)?,
                out,
            ),
            "shared" => shared(world_of(&self.files, &[], out)?, words, out),
            "sink" => self.open_sink(numbers, out),
            "print" => self.print(numbers, out),
            "text" => self.print_text(words, out),
            "printed" => self.take_printed(words, out),
            "audit" => self.audit(words, numbers, out),
            "lane" => lane(words, out),
            "stream" => self.stream(words, out),
            _ => Err(Stop::NoCommand),
        }
    }

    /// Forgets the requests and the files.
    fn forget(&mut self, out: &mut Vec<u8>) -> Result<(), Stop> {
        self.served = Vec::new(self.alloc);
        self.files = Vec::new(self.alloc);
        out.extend_from_slice(b"nothing is served and no file is there\n")?;
        Ok(())
    }

    /// Adds a request with its number and its reply, and appends its line.
    fn serve(&mut self, words: &[&str], numbers: &[u64], out: &mut Vec<u8>) -> Result<(), Stop> {
        let done = done_of(self.alloc, words, numbers)?;
        self.served.push(done)?;
        write_done(&done, out)?;
        Ok(())
    }

    /// Adds the last request so many times more.
    fn serve_again(&mut self, numbers: &[u64], out: &mut Vec<u8>) -> Result<(), Stop> {
        let ([times], [.., done]) = (numbers, self.served.as_slice()) else {
            return Err(Stop::NoCommand);
        };
        let done = *done;
        for _more in 0..*times {
            self.served.push(done)?;
        }
        push_count("served", self.served.len() as u64, out)?;
        Ok(())
    }

    /// Adds a file of this name with this text, and appends how many bytes it has.
    fn add_file(&mut self, words: &[&str], out: &mut Vec<u8>) -> Result<(), Stop> {
        let [name, text @ ..] = words else {
            return Err(Stop::NoCommand);
        };
        let name = String::from_str(self.alloc, name)?;
        let bytes = text_of(self.alloc, text)?;
        push_count("bytes", bytes.len() as u64, out)?;
        self.files.push(MemFile { name, bytes })?;
        Ok(())
    }

    /// Makes a sink, with its bytes of room, the most bytes that it takes in a call, and the calls that fail.
    fn open_sink(&mut self, numbers: &[u64], out: &mut Vec<u8>) -> Result<(), Stop> {
        let [room, most, fail @ ..] = numbers else {
            return Err(Stop::NoCommand);
        };
        if *most == 0 {
            return Err(Stop::NoCommand);
        }
        self.sink = MemSink::new(self.alloc, *room, *most, fail.to_vec(self.alloc)?)?;
        out.extend_from_slice(self.sink.bytes())?;
        Ok(())
    }

    /// Hands the sink the line of each request and the last line.
    fn print(&mut self, numbers: &[u64], out: &mut Vec<u8>) -> Result<(), Stop> {
        let [last] = numbers else {
            return Err(Stop::NoCommand);
        };
        let printed = print_lines(self.alloc, &self.served, *last, &mut self.sink);
        Ok(self.push_printed(printed, out)?)
    }

    /// Hands the sink a text.
    fn print_text(&mut self, words: &[&str], out: &mut Vec<u8>) -> Result<(), Stop> {
        let printed = print_text(&text_of(self.alloc, words)?, &mut self.sink);
        Ok(self.push_printed(printed, out)?)
    }

    /// Hands the sink what a streamed run prints.
    fn stream(&mut self, words: &[&str], out: &mut Vec<u8>) -> Result<(), Stop> {
        let printed = stream(self.alloc, words, &mut self.sink)?;
        Ok(self.push_printed(printed, out)?)
    }

    /// Takes a text as what a run printed, and appends how many bytes it has.
    fn take_printed(&mut self, words: &[&str], out: &mut Vec<u8>) -> Result<(), Stop> {
        self.printed = text_of(self.alloc, words)?;
        push_count("bytes", self.printed.len() as u64, out)?;
        Ok(())
    }

    /// Appends the verdict on what was printed, of the files, behind a number; or on that with another text at a place.
    fn audit(&mut self, words: &[&str], numbers: &[u64], out: &mut Vec<u8>) -> Result<(), Stop> {
        match (words, numbers) {
            ([_], [number]) => judge(&self.files, *number, &self.printed, out),
            ([_, "at", _, piece @ ..], [number, place, ..]) => {
                let piece = text_of(self.alloc, piece)?;
                let text = changed(self.alloc, &self.printed, *place as usize, &piece)?;
                judge(&self.files, *number, &text, out)
            }
            _ => Err(Stop::NoCommand),
        }
    }

    /// Appends whether all was printed, and what the sink has.
    fn push_printed(
        &self,
        printed: Result<(), Fault>,
        out: &mut Vec<u8>,
    ) -> Result<(), AllocError> {
        match printed {
            Ok(()) => out.extend_from_slice(b"whole\n")?,
            Err(fault) => fault_text(&fault, out)?,
        }
        out.extend_from_slice(self.sink.bytes())
    }
}

/// Appends how large a request file may be.
fn limits(out: &mut Vec<u8>) -> Result<(), Stop> {
    push_count("bytes", MAX_BYTES as u64, out)?;
    push_count("records", MAX_RECORDS, out)?;
    Ok(())
}

/// The words in front of `failing`.
fn names_among<'a>(alloc: Global, words: &[&'a str]) -> Result<Vec<&'a str>, AllocError> {
    let mut names = Vec::new(alloc);
    for word in words {
        if *word == "failing" {
            break;
        }
        names.push(*word)?;
    }
    Ok(names)
}
