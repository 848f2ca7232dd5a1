//! Scripts of commands of the product, and of openings, formats and recoveries of images, carried out over a medium, files and a
//! sink in memory, also where something fails.
#![tactic(auto)]

mod acts;
mod asks;
mod audits;
mod bench;
mod followers;
mod found;
mod homes;
mod outcome;
mod packets;
mod printing;
mod scene;
mod setup;
mod several;
mod stored;
mod streams;
mod turns;
mod wanted;

use bench::Bench;
use std::io;
use std::thread::Threads;

/// Carries out a script, and prints what it leaves.
pub fn follow<R: Threads + Sync>(threads: &R, rt: HostRuntime, script: &str) -> io::Result<()> {
    let mut bench = Bench::new(rt.alloc())?;
    for line in script.lines() {
        bench.take_line(threads, &rt, line)?;
    }
    Ok(())
}
