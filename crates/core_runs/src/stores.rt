//! What the store behind the machine has.

use crate::output::{print_maybe, print_no_command, print_numbers};
use crate::stage::Stage;
use std::io;

/// Prints what the store has of this name.
pub fn ask_store(rt: &HostRuntime, stage: &Stage, name: &str, numbers: &[u64]) -> io::Result<()> {
    let store = stage.core.store();
    match (name, numbers) {
        ("waits", []) => print_waiting(rt, stage),
        ("mark", []) => print_numbers(rt, name, &[store.reproduced()]),
        ("calls", []) => print_numbers(rt, name, &[store.calls().len() as u64]),
        ("home", [at]) => print_maybe(rt, name, stage.home_word(*at)),
        ("next", [ring]) => print_maybe(rt, name, stage.next_slot(*ring)),
        ("value", [at]) => print_maybe(rt, name, store.word_read(*at)),
        _ => print_no_command(rt),
    }
}

/// Prints the numbers that each waiting bundle covers, and its ring.
fn print_waiting(rt: &HostRuntime, stage: &Stage) -> io::Result<()> {
    let waiting = stage.core.store().waiting();
    rt.print("waits")?;
    if waiting.is_empty() {
        return rt.println(" none");
    }
    let mut comma = "";
    for bundle in waiting {
        let first = bundle.redo().first();
        let last = bundle.redo().last();
        let ring = bundle.ring();
        print!(rt; "{comma} {first} to {last} in ring {ring}")?;
        comma = ",";
    }
    rt.println("")
}
