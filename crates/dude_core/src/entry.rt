//! What a transaction leaves.

use crate::about::About;
use crate::pairs::Pairs;
use dude_base::write_list::WriteList;
use std::marker::Model;

/// What a transaction leaves: its number, what it is about, and what it read and wrote.
#[derive(Drop)]
pub struct Entry {
    /// Its number; where it only read, its snapshot.
    pub number: u64,
    /// Whether it wrote, with that number.
    pub wrote: bool,
    /// What it is about.
    pub about: About,
    /// Home words, and the values that it read there.
    pub reads: Pairs,
    /// What it wrote.
    pub writes: WriteList,
}

impl Model for Entry {
    ghost use Rattle.core_events.specs.Views.{Entry};

    ghost Value = { Entry };

    ghost view = { λ a. record { number = a.number; wrote = a.wrote; about = a.about; reads = a.reads; writes = a.writes } };
}
