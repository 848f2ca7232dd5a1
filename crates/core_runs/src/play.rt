//! The commands of a script, carried out.

use crate::histories::print_history;
use crate::output::{print_no_command, print_numbers};
use crate::pages::Pages;
use crate::parts::{cut, numbers_in};
use crate::stage::Stage;
use crate::steps::{ask_stage, ask_view};
use dude_base::limits::MAX_RINGS;
use dude_base::sizes::Sizes;
use script_words::is_remark;
use std::io;

/// What a script has set up.
#[derive(Drop)]
pub struct Play {
    sizes: Option<Sizes>,
    first_word: u64,
    stage: Option<Stage>,
    pages: Option<Pages>,
}

impl Play {
    /// Nothing is set up.
    pub fn new() -> Self {
        Play {
            sizes: None,
            first_word: 0,
            stage: None,
            pages: None,
        }
    }

    /// Follows a script.
    pub fn follow(&mut self, rt: &HostRuntime, script: &str) -> io::Result<()> {
        for line in script.lines() {
            self.take_line(rt, line)?;
        }
        Ok(())
    }

    /// Prints a remark again, and carries out another line but for the reason behind ` # `.
    fn take_line(&mut self, rt: &HostRuntime, line: &str) -> io::Result<()> {
        if is_remark(line) {
            return rt.println(line);
        }
        match line.split_once(" # ") {
            Some((command, _)) => self.carry_out(rt, command),
            None => self.carry_out(rt, line),
        }
    }

    /// Carries out a command, and prints what happened or is found.
    fn carry_out(&mut self, rt: &HostRuntime, command: &str) -> io::Result<()> {
        let (head, rest) = match command.split_once(": ") {
            Some(parts) => parts,
            None => (command, ""),
        };
        let (verb, name) = cut(head);
        let numbers = numbers_in(rt.alloc(), name)?;
        match verb {
            "database" => self.set_database(rt, numbers.as_slice()),
            "machine" => self.set_machine(rt, numbers.as_slice()),
            "history" => print_history(rt, name),
            "map" => self.ask_map(rt, cut(name).0, numbers.as_slice()),
            _ => self.ask_machine(rt, (verb, name, rest), numbers.as_slice()),
        }
    }

    /// Takes the sizes of a database, its first word, and how many rings its image has (as many as there may be, where they aren't
    /// named), and prints how many pages it has.
    fn set_database(&mut self, rt: &HostRuntime, numbers: &[u64]) -> io::Result<()> {
        let (sizes, first_word) = match numbers {
            [subscribers, calls, word] => (sizes_of(*subscribers, *calls, MAX_RINGS), *word),
            [subscribers, calls, word, rings] => (sizes_of(*subscribers, *calls, *rings), *word),
            _ => return print_no_command(rt),
        };
        self.sizes = sizes;
        self.first_word = first_word;
        match self.sizes {
            Some(sizes) => print_numbers(rt, "pages", &[sizes.pages]),
            None => rt.println("pages none"),
        }
    }

    /// Sets a machine up over the last database.
    fn set_machine(&mut self, rt: &HostRuntime, numbers: &[u64]) -> io::Result<()> {
        let Some(sizes) = self.sizes else {
            return print_no_command(rt);
        };
        self.stage = None;
        match Stage::open(rt.alloc(), sizes, self.first_word, numbers) {
            Ok(stage) => {
                self.stage = stage;
                print_set_up(rt, self.stage.is_some())
            }
            Err(fault) => println!(rt; "{fault}"),
        }
    }

    /// Sets a map up, or carries out a command on the last one.
    fn ask_map(&mut self, rt: &HostRuntime, name: &str, numbers: &[u64]) -> io::Result<()> {
        if let [pages, frames] = numbers {
            self.pages = Pages::new(rt.alloc(), *pages, *frames)?;
            return print_set_up(rt, self.pages.is_some());
        }
        match &mut self.pages {
            Some(map) => map.carry_out(rt, name, numbers.first().copied()),
            None => print_no_command(rt),
        }
    }

    /// Carries out a command on the last machine: a verb, what it is about, and what stands behind a colon.
    fn ask_machine(
        &mut self,
        rt: &HostRuntime,
        words: (&str, &str, &str),
        numbers: &[u64],
    ) -> io::Result<()> {
        match (&mut self.stage, numbers, words.2) {
            (Some(stage), _, "") => ask_stage(rt, stage, words.0, words.1, numbers),
            (Some(stage), [who], events) => ask_view(rt, stage, words.0, *who, events),
            _ => print_no_command(rt),
        }
    }
}

/// The sizes of a database whose image has so many rings, if there are such.
fn sizes_of(subscribers: u64, calls: u64, rings: u64) -> Option<Sizes> {
    Sizes::of(subscribers, calls, rings, 16).ok()
}

fn print_set_up(rt: &HostRuntime, is_set_up: bool) -> io::Result<()> {
    rt.println(if is_set_up { "set up" } else { "not set up" })
}
