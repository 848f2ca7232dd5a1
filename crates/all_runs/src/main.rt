//! Carries out the scripts of standard input, each by the library whose name stands in front of it, as `=== NAME`. It prints that
//! line again, and then what the script leaves.
#![tactic(auto)]

use std::io;
use std::thread::Threads;

fn main(rt: HostRuntime) -> io::Result<()> {
    let input = io::read_to_string(rt.alloc(), rt.reader())?;
    for part in input.split("=== ") {
        let (name, script) = part.split_once('\n').unwrap_or((part, ""));
        follow(&rt, rt, name, script)?;
    }
    Ok(())
}

/// Carries out the script of this name. In front of the first one stands nothing.
fn follow<R: Threads + Sync>(
    threads: &R,
    rt: HostRuntime,
    name: &str,
    script: &str,
) -> io::Result<()> {
    if name.is_empty() {
        return Ok(());
    }
    println!(rt; "=== {name}")?;
    match name {
        "core_runs" => core_runs::follow(rt, script),
        "log_runs" => log_runs::follow(rt, script),
        "home_runs" => home_runs::follow(rt, script),
        "text_runs" => text_runs::follow(rt, script),
        "stm_runs" => stm_runs::follow(rt, script),
        "program_runs" => program_runs::follow(threads, rt, script),
        "thread_runs" => thread_runs::follow(threads, rt, script),
        _ => rt.println("no such script"),
    }
}
