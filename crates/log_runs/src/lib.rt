//! Scripts of calls on the media, the rings, the back of the store, files and sinks: what each of them answers and leaves is
//! printed. What each line of a script does stands at its head.
#![tactic(auto)]

mod bench;
mod call_list;
mod crashes;
mod disk;
mod edges;
mod faulty_file;
mod faulty_host;
mod file_command;
mod log;
mod medium;
mod persisted;
mod records;
mod replays;
mod save;
mod say;
mod trial;

use bench::Bench;
use script_words::take_lines;
use std::io;

/// Carries out a script, and prints what it leaves.
pub fn follow(rt: HostRuntime, script: &str) -> io::Result<()> {
    take_lines(rt, &mut Bench::new(rt), script)
}
