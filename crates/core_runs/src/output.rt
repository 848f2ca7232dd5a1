//! What is printed: words with numbers behind them.

use pmem_trait::Call;
use std::io;

/// That a line is no command.
pub fn print_no_command(rt: &HostRuntime) -> io::Result<()> {
    rt.println("no command")
}

/// Words, and numbers behind them, or `none`.
pub fn print_numbers(rt: &HostRuntime, words: &str, numbers: &[u64]) -> io::Result<()> {
    rt.print(words)?;
    if numbers.is_empty() {
        return rt.println(" none");
    }
    for number in numbers {
        print!(rt; " {number}")?;
    }
    rt.println("")
}

/// Words, and a number behind them, or `none`.
pub fn print_maybe(rt: &HostRuntime, words: &str, number: Option<u64>) -> io::Result<()> {
    match number {
        Some(number) => print_numbers(rt, words, &[number]),
        None => print_numbers(rt, words, &[]),
    }
}

/// Words, and places with their values behind them, or `none`, and no end of the line.
pub fn print_pairs(rt: &HostRuntime, words: &str, pairs: &[(u64, u64)]) -> io::Result<()> {
    rt.print(words)?;
    if pairs.is_empty() {
        return rt.print(" none");
    }
    for pair in pairs {
        print_pair(rt, pair.0, pair.1)?;
    }
    Ok(())
}

/// A place with its value behind a space.
pub fn print_pair(rt: &HostRuntime, at: u64, value: u64) -> io::Result<()> {
    print!(rt; " {at}={value}")
}

/// A call on the medium, as a script has it.
pub fn print_call(rt: &HostRuntime, call: &Call) -> io::Result<()> {
    match call {
        Call::Read(at) => print_numbers(rt, "Read", &[*at]),
        Call::Put { at, value } => print_numbers(rt, "Put", &[*at, *value]),
        Call::Flush(line) => print_numbers(rt, "Flush", &[*line]),
        Call::Fence => rt.println("Fence"),
        Call::Tell(number) => print_numbers(rt, "Tell", &[*number]),
    }
}
