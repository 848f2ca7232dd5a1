//! Scripts of running transactions over the back of a store in memory: what passes do, one after another on one thread, and what is
//! left, also where a call on the medium fails. What each line of a script does stands at its head.
#![tactic(auto)]

mod acting;
mod bench;
mod closing;
mod faults;
mod images;
mod judging;
mod moves;
mod outcome;
mod parsing;
mod say;
mod settings;
mod stage;
mod transacting;

use bench::Bench;
use script_words::take_lines;
use std::io;

/// Carries out a script, and prints what it leaves.
pub fn follow(rt: HostRuntime, script: &str) -> io::Result<()> {
    take_lines(rt, &mut Bench::new(rt), script)
}
