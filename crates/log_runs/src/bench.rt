//! What a script's lines are carried out on.

use crate::crashes::{medium_of, say_failures};
use crate::disk::{change, open_beside, say_edge_fault, say_file};
use crate::edges::{say_disk, say_output, say_sink, say_text, text_of};
use crate::faulty_host::FaultyHost;
use crate::file_command::FileCommand;
use crate::log::Log;
use crate::medium::{Subject, say_size};
use crate::records::{
    record_of, say_added, say_bundle, say_cells, say_combined, say_decoded, say_joined,
};
use crate::say::{say_back_fault, say_ring_fault};
use crate::trial::{Step, Trial};
use dude_base::bundle::Bundle;
use dude_base::redo::Redo;
use dude_io::FilePmem;
use pmem_fake::MemPmem;
use script_words::{TakeLine, number_at, number_of, numbers_of, pairs_of, words_of};
use std::{io, mem};

/// What a script's lines are carried out on.
#[derive(Drop)]
pub struct Bench {
    rt: HostRuntime,
    /// The words that a new medium in memory begins with.
    words: Vec<u64>,
    subject: Subject,
    ring: Option<Log>,
    /// The bundle at hand.
    bundle: Bundle,
    /// The calls on the back so far.
    steps: Vec<Step>,
    /// The names and texts of the files in memory.
    texts: Vec<(String, String)>,
}

/// How many of these words are numbers.
fn count_numbers(words: &[&str]) -> usize {
    let mut count = 0_usize;
    for word in words {
        if number_of(word).is_some() {
            count = count.saturating_add(1);
        }
    }
    count
}

/// Carries out a command on a file of the system, on a sink or on standard output.
fn on_file(rt: HostRuntime, command: &FileCommand) -> io::Result<()> {
    let (file, numbers) = (command.file, command.numbers);
    match command.name {
        "disk" => say_disk(rt, file, number_at(numbers, 0)),
        "sink" => say_sink(rt, file, numbers),
        "output" => say_output(rt, file),
        "bytes" => say_file(rt, file, numbers),
        _ => change(rt, command),
    }
}

/// What only the type of a medium that may move to another thread is passed to.
fn is_send<T: Send>() {}

impl Bench {
    /// Nothing yet.
    pub fn new(rt: HostRuntime) -> Bench {
        is_send::<MemPmem>();
        is_send::<FilePmem<HostRuntime>>();
        Bench {
            rt,
            words: Vec::new(rt.alloc()),
            subject: Subject::Nothing,
            ring: None,
            bundle: Bundle::one(&Redo::new(0)),
            steps: Vec::new(rt.alloc()),
            texts: Vec::new(rt.alloc()),
        }
    }

    /// Carries out a command: a name, numbers, and then pairs or other words.
    fn carry_out(&mut self, name: &str, words: &[&str]) -> io::Result<()> {
        let (numbers, rest) = words.split_at(count_numbers(words).min(words.len()));
        match numbers_of(self.rt.alloc(), numbers)? {
            Some(numbers) => self.by_kind(name, &numbers, rest),
            None => self.rt.println("no numbers"),
        }
    }

    /// Carries out a command by what it has behind its numbers.
    fn by_kind(&mut self, name: &str, numbers: &[u64], rest: &[&str]) -> io::Result<()> {
        match (name, rest) {
            ("one" | "add" | "encode" | "append" | "persist" | "combine", _) => {
                self.by_pairs(name, numbers, rest)
            }
            (_, []) => self.by_numbers(name, numbers),
            (_, [file, lines @ ..]) => self.by_words(name, numbers, file, lines),
        }
    }

    /// Carries out a command that has only numbers.
    fn by_numbers(&mut self, name: &str, numbers: &[u64]) -> io::Result<()> {
        match name {
            "words" => self.fill(number_at(numbers, 0), number_at(numbers, 1)),
            "set" => self.set(numbers),
            "memory" => self.start(numbers),
            "decode" => say_decoded(self.rt, numbers),
            "join" => say_joined(self.rt, &mut self.bundle, number_at(numbers, 0)),
            "cells" => say_cells(self.rt, &self.bundle),
            _ => self.by_state(name, numbers),
        }
    }

    /// Carries out a command on the ring, on the back, or on the medium.
    fn by_state(&mut self, name: &str, numbers: &[u64]) -> io::Result<()> {
        let number = number_at(numbers, 0);
        match name {
            "ring" => self.begin_ring(number),
            "release" => self.release(number),
            "back" => self.begin_back(),
            "end" => self.end_back(),
            "announce" => self.step(Step::Announce),
            "reproduce" => self.step(Step::Reproduce(number)),
            "each" => say_failures(self.rt, &self.words, &self.steps, number),
            _ => self.subject.carry_out(self.rt, name, numbers),
        }
    }

    /// Carries out a command that has numbers, and then the writes of records.
    fn by_pairs(&mut self, name: &str, numbers: &[u64], words: &[&str]) -> io::Result<()> {
        match pairs_of(self.rt.alloc(), words)? {
            Some(writes) => self.with_writes(name, numbers, &writes),
            None => self.rt.println("no pairs"),
        }
    }

    /// Carries out a command on these writes, or one without them on the bundle at hand.
    fn with_writes(
        &mut self,
        name: &str,
        numbers: &[u64],
        writes: &[(u64, u64)],
    ) -> io::Result<()> {
        match (name, numbers) {
            ("combine", &[count]) => say_combined(self.rt, count, writes),
            ("append", &[]) => self.append_bundle(),
            ("persist", &[ring]) => self.persist_bundle(ring),
            _ => self.with_record(name, numbers, writes),
        }
    }

    /// Appends the bundle at hand to the ring.
    fn append_bundle(&mut self) -> io::Result<()> {
        let bundle = self.bundle.copy();
        self.append(&bundle)
    }

    /// Persists the bundle at hand in a ring of the back.
    fn persist_bundle(&mut self, ring: u64) -> io::Result<()> {
        let bundle = self.bundle.copy();
        self.step(Step::Persist(ring, bundle))
    }

    /// Carries out a command on a record of these writes, of which the last number is that of the record.
    fn with_record(
        &mut self,
        name: &str,
        numbers: &[u64],
        writes: &[(u64, u64)],
    ) -> io::Result<()> {
        match record_of(numbers.last().copied().unwrap_or(0), writes) {
            Ok(redo) => self.on_record(name, numbers, &redo),
            Err(fault) => self.rt.println(fault),
        }
    }

    /// Carries out a command on a record.
    fn on_record(&mut self, name: &str, numbers: &[u64], redo: &Redo) -> io::Result<()> {
        match name {
            "one" => self.begin_bundle(redo),
            "add" => say_added(self.rt, &mut self.bundle, redo),
            "encode" => say_cells(self.rt, &Bundle::one(redo)),
            "append" => self.append(&Bundle::one(redo)),
            "persist" => self.step(Step::Persist(number_at(numbers, 0), Bundle::one(redo))),
            _ => self.rt.println("no command"),
        }
    }

    /// Has the bundle of a record at hand, and prints it.
    fn begin_bundle(&mut self, redo: &Redo) -> io::Result<()> {
        self.bundle = Bundle::one(redo);
        say_bundle(self.rt, &self.bundle)
    }

    /// Carries out a command that has words: the name of a file, or a text, and lines.
    fn by_words(
        &mut self,
        name: &str,
        numbers: &[u64],
        file: &str,
        lines: &[&str],
    ) -> io::Result<()> {
        match name {
            "file" => self.add_file(file, lines),
            "text" => say_text(self.rt, &self.texts, file, numbers),
            "open" => self.open(FaultyHost::new(self.rt, numbers.first().copied()), file),
            "watch" => self.watch(file, number_at(numbers, 0)),
            "open_beside" => open_beside(self.rt, file),
            _ => on_file(
                self.rt,
                &FileCommand {
                    name,
                    numbers,
                    file,
                    lines,
                },
            ),
        }
    }

    /// Has so many words of this value.
    fn fill(&mut self, count: u64, value: u64) -> io::Result<()> {
        self.words = vec![in self.rt.alloc(); value; count as usize]?;
        self.say_count()
    }

    /// Sets words from a place on, the first of these numbers, to the others.
    fn set(&mut self, numbers: &[u64]) -> io::Result<()> {
        let (at, values) = numbers.split_first().unwrap_or((&0, &[]));
        for k in 0..values.len() {
            let place = k.saturating_add(*at as usize);
            if place < self.words.len() {
                self.words[place] = values[k];
            }
        }
        self.say_count()
    }

    /// Makes a medium in memory with the words: the numbers are whether calls fail late, how many may be made, and those that fail.
    fn start(&mut self, numbers: &[u64]) -> io::Result<()> {
        let (late, budget) = (number_at(numbers, 0) != 0, number_at(numbers, 1));
        let fail = numbers.get(2..).unwrap_or_default();
        let medium = medium_of(self.rt.alloc(), &self.words, late, budget, fail)?;
        self.work_on(Subject::Memory(medium));
        self.say_count()
    }

    /// Lets go what the calls were made on, and takes another in its place.
    fn work_on(&mut self, subject: Subject) {
        drop(mem::replace(&mut self.subject, subject));
    }

    /// Gives what the calls were made on, and has nothing in its place.
    fn taken(&mut self) -> Subject {
        mem::replace(&mut self.subject, Subject::Nothing)
    }

    /// Prints how many words a new medium has.
    fn say_count(&self) -> io::Result<()> {
        let count = self.words.len();
        println!(self.rt; "{count} words")
    }

    /// Makes a ring.
    fn begin_ring(&mut self, ring: u64) -> io::Result<()> {
        self.ring = Log::new(self.rt.alloc(), ring)?;
        self.rt.println("ok")
    }

    /// Releases bundles of the ring.
    fn release(&mut self, number: u64) -> io::Result<()> {
        if let Some(log) = &mut self.ring {
            log.release(number);
        }
        self.rt.println("ok")
    }

    /// Appends a bundle to the ring, and prints the answer.
    fn append(&mut self, bundle: &Bundle) -> io::Result<()> {
        let (Some(log), Subject::Memory(medium)) = (&mut self.ring, &mut self.subject) else {
            return self.rt.println("no ring, or no medium");
        };
        match log.append(medium, bundle) {
            Some(Ok(())) => self.rt.println("ok"),
            Some(Err(fault)) => say_ring_fault(self.rt, fault),
            None => self.rt.println("not allowed"),
        }
    }

    /// Makes a back of the medium in memory.
    fn begin_back(&mut self) -> io::Result<()> {
        self.steps.clear();
        match self.taken() {
            Subject::Memory(medium) => match Trial::new(self.rt.alloc(), medium) {
                Some(trial) => self.take_made(Subject::Back(trial)),
                None => self.rt.println("no room"),
            },
            _ => self.rt.println("no room"),
        }
    }

    /// Makes a medium in memory of the back.
    fn end_back(&mut self) -> io::Result<()> {
        match self.taken() {
            Subject::Back(trial) => self.take_made(Subject::Memory(trial.into_medium())),
            _ => self.rt.println("no back"),
        }
    }

    /// Takes what was made for what calls are made on.
    fn take_made(&mut self, subject: Subject) -> io::Result<()> {
        self.work_on(subject);
        self.rt.println("ok")
    }

    /// Makes a call on the back, and prints its answer.
    fn step(&mut self, step: Step) -> io::Result<()> {
        let answer = match &mut self.subject {
            Subject::Back(trial) => trial.take(&step)?,
            _ => None,
        };
        self.steps.push(step)?;
        match answer {
            Some(Ok(number)) => self.rt.println(number),
            Some(Err(fault)) => say_back_fault(self.rt, fault),
            None => self.rt.println("not allowed"),
        }
    }

    /// Opens the medium in a file of a host, once that of before is let go, and prints its size, or why there is none.
    fn open(&mut self, host: FaultyHost, file: &str) -> io::Result<()> {
        self.work_on(Subject::Nothing);
        match FilePmem::open(host, file) {
            Ok(medium) => {
                let said = say_size(self.rt, &medium);
                self.work_on(Subject::File(medium));
                said
            }
            Err(fault) => say_edge_fault(self.rt, fault),
        }
    }

    /// The same where each call on files is printed, and the one of this count fails, from 1.
    fn watch(&mut self, file: &str, failing: u64) -> io::Result<()> {
        let host = FaultyHost::watched(self.rt, failing)?;
        self.open(host, file)
    }

    /// Adds a file in memory, and prints how many bytes it has.
    fn add_file(&mut self, name: &str, lines: &[&str]) -> io::Result<()> {
        let name = String::from_str(self.rt.alloc(), name)?;
        let text = text_of(self.rt.alloc(), lines)?;
        let count = text.len();
        self.texts.push((name, text))?;
        println!(self.rt; "{count} bytes")
    }
}

impl TakeLine for Bench {
    fn take_line(&mut self, line: &str) -> io::Result<()> {
        let words = words_of(self.rt.alloc(), line)?;
        match words.as_slice() {
            [name, rest @ ..] => self.carry_out(name, rest),
            [] => self.rt.println("no command"),
        }
    }
}
