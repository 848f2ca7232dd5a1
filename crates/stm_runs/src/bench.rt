//! What a script's lines are carried out on.

use crate::closing::say_closed;
use crate::faults::{Ground, say_failures, say_moments};
use crate::images::{calls_of_opening, new_image, opened};
use crate::moves::Move;
use crate::parsing::move_of;
use crate::say::{say_outcome, say_pass, say_seen};
use crate::settings::{NONE, Settings};
use crate::stage::Stage;
use dude_base::limits::PAGE;
use dude_base::run::Run;
use dude_base::sizes::Sizes;
use script_words::{TakeLine, number_of, numbers_of, words_of};
use std::{io, mem};
use tiny_stm::stm_fault::StmFault;

/// What a script's lines are carried out on.
#[derive(Drop)]
pub struct Bench {
    rt: HostRuntime,
    image: Vec<u64>,
    /// The home of the image.
    home: Vec<u64>,
    /// How many calls the opening of the image makes.
    opening: u64,
    settings: Settings,
    stage: Option<Stage>,
    /// What passes did since the transactions began.
    moves: Vec<Move>,
}

impl Bench {
    /// Nothing yet.
    pub fn new(rt: HostRuntime) -> Bench {
        Bench {
            rt,
            image: Vec::new(rt.alloc()),
            home: Vec::new(rt.alloc()),
            opening: 0,
            settings: Settings {
                threads: 0,
                run: Run {
                    frames: 0,
                    locks: 0,
                    boxes: 0,
                },
            },
            stage: None,
            moves: Vec::new(rt.alloc()),
        }
    }

    /// Makes an image, or begins transactions over it.
    fn begin(&mut self, name: &str, words: &[&str]) -> io::Result<()> {
        let numbers = numbers_of(self.rt.alloc(), words)?;
        match (name, numbers.as_deref().unwrap_or_default()) {
            ("image", &[subscribers, calls, rings, cells]) => {
                self.make_image(Sizes::of(subscribers, calls, rings, cells).ok())
            }
            ("run", &[threads, frames, locks, boxes]) => self.run(Settings {
                threads,
                run: Run {
                    frames,
                    locks,
                    boxes,
                },
            }),
            _ => self.rt.println("nothing"),
        }
    }

    /// Makes a new image of these sizes, and prints how many words and pages it has.
    fn make_image(&mut self, sizes: Option<Sizes>) -> io::Result<()> {
        let made = sizes.and_then(|sizes| new_image(self.rt.alloc(), &sizes));
        let (Some(sizes), Some(image)) = (sizes, made) else {
            return self.rt.println("nothing");
        };
        let (count, pages) = (image.len(), sizes.pages);
        let home = count.saturating_sub(pages.saturating_mul(PAGE) as usize);
        self.home = image
            .get(home..)
            .unwrap_or_default()
            .to_vec(self.rt.alloc())?;
        self.opening = calls_of_opening(self.rt.alloc(), &image).unwrap_or(0);
        self.image = image;
        println!(self.rt; "{count} words, {pages} pages")
    }

    /// Begins transactions over the image, and prints whether they run.
    fn run(&mut self, settings: Settings) -> io::Result<()> {
        self.settings = settings;
        self.moves.clear();
        let Some(opened) = opened(self.rt.alloc(), &self.image, NONE) else {
            return self.rt.println("nothing");
        };
        match Stage::over(self.rt.alloc(), opened, &settings) {
            Ok(stage) => {
                drop(mem::replace(&mut self.stage, Some(stage)));
                self.rt.println("they run")
            }
            Err(StmFault::Size { frames, pages }) => {
                println!(self.rt; "Size {{ frames: {frames}, pages: {pages} }}")
            }
            Err(StmFault::NoMemory) => self.rt.println("NoMemory"),
        }
    }

    /// Prints what a pass tells of itself.
    fn say_pass(&self, who: u64) -> io::Result<()> {
        match self.stage.as_ref().and_then(|stage| stage.pass(who)) {
            Some(pass) => say_pass(self.rt, pass),
            None => self.rt.println("nothing"),
        }
    }

    /// Has passes do what a line says, and prints what came of it.
    fn play(&mut self, line: &str) -> io::Result<()> {
        let made = move_of(self.rt.alloc(), line)?;
        let (Some(made), Some(stage)) = (made, &mut self.stage) else {
            return self.rt.println("nothing");
        };
        let mut seen = Vec::new(self.rt.alloc());
        let outcome = stage.play(&made, &mut seen);
        self.moves.push(made)?;
        say_seen(self.rt, &seen)?;
        say_outcome(self.rt, &outcome)
    }

    /// Ends the transactions, and prints what they left.
    fn close(&mut self) -> io::Result<()> {
        match mem::replace(&mut self.stage, None) {
            Some(stage) => say_closed(self.rt, stage.close(), &self.home, self.opening),
            None => self.rt.println("nothing"),
        }
    }

    /// What the moves so far are made over.
    fn ground(&self) -> Ground<'_> {
        Ground {
            image: &self.image,
            home: &self.home,
            opening: self.opening,
            settings: &self.settings,
            moves: &self.moves,
        }
    }
}

impl TakeLine for Bench {
    fn take_line(&mut self, line: &str) -> io::Result<()> {
        let words = words_of(self.rt.alloc(), line)?;
        match words.as_slice() {
            ["close"] => self.close(),
            ["failures"] => say_failures(self.rt, &self.ground()),
            ["moments"] => say_moments(self.rt, &self.ground()),
            ["pass", who] => self.say_pass(number_of(who).unwrap_or(u64::MAX)),
            [name @ ("image" | "run"), rest @ ..] => self.begin(name, rest),
            _ => self.play(line),
        }
    }
}
