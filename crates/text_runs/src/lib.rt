//! Scripts over the texts of the program: request files, replies, the dump, loads and their summary, command words, faults,
//! command files, output and audits.
#![tactic(auto)]

mod audits;
mod bench;
mod faults;
mod files;
mod numbers;
mod page;
mod population;
mod replies;
mod requests;
mod stop;
mod streams;
mod text;
mod words;

use bench::Bench;
use std::io;

/// Carries out a script: prints each remark as it stands, and what each command gave.
pub fn follow(rt: HostRuntime, script: &str) -> io::Result<()> {
    let mut bench = Bench::new(rt.alloc())?;
    for line in script.lines() {
        rt.print(bench.answer(line)?.as_str())?;
    }
    Ok(())
}
