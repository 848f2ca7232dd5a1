//! What a script's lines are carried out on.

use crate::acts::act;
use crate::asks::ask;
use crate::audits::audit_run;
use crate::outcome::Outcome;
use crate::printing::{print_ending, print_output};
use crate::scene::{Scene, Settings, medium_of};
use crate::setup::{add_line, next_file, next_image};
use crate::stored::stored_image;
use crate::turns::{after, behind, each};
use dude_io::MemFile;
use script_words::{is_remark, number_of, words_of};
use std::alloc::{AllocError, Global};
use std::io;
use std::thread::Threads;

/// What a script's lines are carried out on.
#[derive(Drop)]
pub struct Bench {
    pub image: Vec<u64>,
    /// The request files.
    files: Vec<MemFile>,
    settings: Settings,
    /// What the last command left.
    pub outcome: Outcome,
    /// Whether the lines are those of the last file.
    in_file: bool,
}

impl Bench {
    /// No words, no files, and no call that fails.
    pub fn new(alloc: Global) -> Result<Bench, AllocError> {
        let settings = Settings::new();
        let scene = Scene {
            image: &[],
            files: &[],
            settings,
        };
        let medium = medium_of(alloc, &scene)?;
        Ok(Bench {
            image: Vec::new(alloc),
            files: Vec::new(alloc),
            settings,
            outcome: Outcome::new(alloc, &[], String::new(alloc), medium)?,
            in_file: false,
        })
    }

    /// What the next command is tried with.
    fn scene(&self) -> Scene<'_> {
        Scene {
            image: &self.image,
            files: &self.files,
            settings: self.settings,
        }
    }

    /// Does what a line says.
    pub fn take_line<R: Threads + Sync>(
        &mut self,
        threads: &R,
        rt: &HostRuntime,
        line: &str,
    ) -> io::Result<()> {
        if self.in_file {
            self.add_to_file(line)?;
            return Ok(());
        }
        if is_remark(line) {
            return rt.println(line);
        }
        let words = words_of(rt.alloc(), line)?;
        if self.obey(threads, rt, &words)? {
            Ok(())
        } else {
            rt.println("no command")
        }
    }

    /// Adds a line to the last file, or ends it.
    fn add_to_file(&mut self, line: &str) -> Result<(), AllocError> {
        self.in_file = line != "end";
        match self.files.last_mut() {
            Some(file) if self.in_file => add_line(&mut file.bytes, line.as_bytes()),
            _ => Ok(()),
        }
    }

    /// Does what a line of these words says; `false` where it says nothing.
    fn obey<R: Threads + Sync>(
        &mut self,
        threads: &R,
        rt: &HostRuntime,
        words: &[&str],
    ) -> io::Result<bool> {
        let [first, rest @ ..] = words else {
            return Ok(false);
        };
        match *first {
            "start" => *self = Bench::new(rt.alloc())?,
            "load" => match rest {
                [name] => self.image = stored_image(rt, name)?,
                _ => return Ok(false),
            },
            "dude" | "open" | "follow" | "format" | "make" => {
                self.outcome = self.carried_out(threads, rt, words)?;
            }
            "aside" => {
                self.carried_out(threads, rt, words)?;
            }
            "each" => return each(threads, rt, &self.scene(), rest),
            "behind" => return behind(threads, rt, &self.scene(), rest),
            "after" => match after(threads, rt, &self.scene(), &self.outcome, rest)? {
                Some(outcome) => self.outcome = outcome,
                None => return Ok(false),
            },
            _ => return self.set_up(threads, rt, first, rest),
        }
        Ok(true)
    }

    /// Carries out a command, and prints what it left.
    fn carried_out<R: Threads + Sync>(
        &self,
        threads: &R,
        rt: &HostRuntime,
        words: &[&str],
    ) -> io::Result<Outcome> {
        let outcome = act(threads, rt.alloc(), &self.scene(), words)?;
        print_ending(rt, &outcome)?;
        print_output(rt, &outcome)?;
        audit_run(threads, rt, &self.scene(), words, &outcome)?;
        Ok(outcome)
    }

    /// Sets up the image, a file or a setting, or asks for something.
    fn set_up<R: Threads + Sync>(
        &mut self,
        threads: &R,
        rt: &HostRuntime,
        first: &str,
        rest: &[&str],
    ) -> io::Result<bool> {
        let made = next_image(threads, rt.alloc(), &self.image, &self.outcome, first, rest)?;
        if let Some(image) = made {
            self.image = image;
            return Ok(true);
        }
        if let Some(file) = next_file(rt.alloc(), first, rest)? {
            self.files.push(file)?;
            self.in_file = rest.len() == 1;
            return Ok(true);
        }
        if let [count] = rest
            && let Some(count) = number_of(count)
            && self.settings.set(first, count)
        {
            return Ok(true);
        }
        ask(rt, &self.image, &self.outcome, first, rest)
    }
}
