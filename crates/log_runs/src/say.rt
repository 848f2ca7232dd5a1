//! What is printed.

use back_store::BackFault;
use log_ring::{RingFault, ScanFault};
use pmem_trait::Failed;
use std::io;

/// Prints whether a call was made.
pub fn say_done(rt: HostRuntime, done: Result<(), Failed>) -> io::Result<()> {
    rt.println(if done.is_ok() { "ok" } else { "failed" })
}

/// Prints what was read, or that the call failed.
pub fn say_value(rt: HostRuntime, found: Result<u64, Failed>) -> io::Result<()> {
    match found {
        Ok(value) => rt.println(value),
        Err(_) => rt.println("failed"),
    }
}

/// Prints a word, and numbers behind it, and doesn't end the line.
pub fn say_numbers(rt: HostRuntime, word: &str, numbers: &[u64]) -> io::Result<()> {
    rt.print(word)?;
    for number in numbers {
        print!(rt; " {number}")?;
    }
    Ok(())
}

/// Prints how many words these are, and those that aren't 0, each behind its place.
pub fn say_words(rt: HostRuntime, words: &[u64]) -> io::Result<()> {
    let count = words.len();
    print!(rt; "{count} words:")?;
    for at in 0..words.len() {
        if words[at] != 0 {
            say_pair(rt, at as u64, words[at])?;
        }
    }
    rt.println("")
}

/// Prints a value behind its place, and both behind what stands on the line.
pub fn say_pair(rt: HostRuntime, at: u64, value: u64) -> io::Result<()> {
    print!(rt; " {at}={value}")
}

/// Prints why a bundle wasn't appended to a ring.
pub fn say_ring_fault(rt: HostRuntime, fault: RingFault) -> io::Result<()> {
    match fault {
        RingFault::Full { used, need } => {
            println!(rt; "{used} cells are taken and {need} more are needed")
        }
        RingFault::Device => rt.println("a call on the medium failed"),
    }
}

/// Prints why a back didn't do what it was asked.
pub fn say_back_fault(rt: HostRuntime, fault: BackFault) -> io::Result<()> {
    match fault {
        BackFault::RingFull { used, need } => {
            println!(rt; "{used} cells of the ring are taken and {need} more are needed")
        }
        BackFault::Device => rt.println("a call on the medium failed"),
        BackFault::Dead => rt.println("an earlier call on the medium failed"),
    }
}

/// Prints why a scan gave no bundles.
pub fn say_scan_fault(rt: HostRuntime, fault: ScanFault) -> io::Result<()> {
    match fault {
        ScanFault::Damaged { line } => println!(rt; "the log is damaged at line {line}"),
        ScanFault::Device => rt.println("a call on the medium failed"),
        ScanFault::NoMemory => rt.println("out of memory"),
    }
}
