//! The state of the machine over vectors, and what its words hold.

ghost use Rattle.core_events.specs.Words.{found, put};
ghost use Rattle.dude_core.specs.Named.{word_of};
ghost use Rattle.std.specs.Prelude.{◌≡◌};

use crate::view::View;
use crate::word::Word;
use crate::words::{load, store};
use dude_base::redo::Redo;
use std::marker::Model;

/// The state of the machine: its words, its views, and the records in boxes and behind them.
#[derive(Drop)]
pub struct State {
    pub(crate) threads: u64,
    pub(crate) clock: u64,
    pub(crate) turn: u64,
    pub(crate) durable: u64,
    pub(crate) reproduced: u64,
    pub(crate) locks: Vec<u64>,
    pub(crate) entries: Vec<u64>,
    pub(crate) touches: Vec<u64>,
    pub(crate) cells: Vec<u64>,
    pub(crate) boxes: Vec<u64>,
    pub(crate) views: Vec<View>,
    pub(crate) records: Vec<Redo>,
    pub(crate) persisted: Vec<Redo>,
}

impl Model for State {
    ghost use Rattle.core_events.specs.Words.{State};

    ghost Value = { State };

    ghost view = { λ a. record { threads = a.threads; clock = a.clock; turn = a.turn; durable = a.durable; reproduced = a.reproduced; locks = a.locks.items; entries = a.entries.items; touches = a.touches.items; cells = a.cells.items; boxes = a.boxes.items; views = a.views.items; records = a.records.items; persisted = a.persisted.items } };
}

impl State {
    /// What the word holds; 0 where there is no such word.
    pub fn found(&self, word: Word) -> u64
        ensures { result ≡ found self.now (word_of word) }
    {
        match word {
            Word::Threads => self.threads,
            Word::Clock => self.clock,
            Word::Turn => self.turn,
            Word::Durable => self.durable,
            Word::Reproduced => self.reproduced,
            Word::Lock(at) => load(&self.locks, at),
            Word::Entry(at) => load(&self.entries, at),
            Word::Touch(at) => load(&self.touches, at),
            Word::Cell(at) => load(&self.cells, at),
            Word::Box(at) => load(&self.boxes, at),
        }
    }

    /// Puts a number into the word.
    pub(crate) fn put(&mut self, word: Word, value: u64)
        ensures { self.new ≡ put self.old (word_of word) value }
    {
        match word {
            Word::Threads => self.threads = value,
            Word::Clock => self.clock = value,
            Word::Turn => self.turn = value,
            Word::Durable => self.durable = value,
            Word::Reproduced => self.reproduced = value,
            Word::Lock(at) => store(&mut self.locks, at, value),
            Word::Entry(at) => store(&mut self.entries, at, value),
            Word::Touch(at) => store(&mut self.touches, at, value),
            Word::Cell(at) => store(&mut self.cells, at, value),
            Word::Box(at) => store(&mut self.boxes, at, value),
        }
    }
}
