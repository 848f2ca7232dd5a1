//! Scripts of the machine of running transactions with its medium, of its steps on a table and of the map of pages and frames, played
//! line by line: what happened, and what is found, is printed.
#![tactic(auto)]

mod call_lists;
mod digest;
mod entries;
mod events;
mod facts;
mod histories;
mod history;
mod others;
mod output;
mod pages;
mod parts;
mod play;
mod stage;
mod steps;
mod stores;
mod sum;
mod trouble;
mod view_digest;
mod whole_calls;
mod words;

use play::Play;
use std::io;

/// Carries out a script, and prints what it leaves.
pub fn follow(rt: HostRuntime, script: &str) -> io::Result<()> {
    Play::new().follow(&rt, script)
}
