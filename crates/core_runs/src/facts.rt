//! What a view shows.

use crate::output::{print_maybe, print_no_command, print_numbers, print_pairs};
use dude_core::view::View;
use std::io;

/// Prints the fact of this name.
pub fn print_fact(rt: &HostRuntime, view: &View, name: &str) -> io::Result<()> {
    match name {
        "splits" => print_numbers(rt, name, &[view.part.splits]),
        "draws" => print_numbers(rt, name, &[view.draws]),
        "snapshot" => print_numbers(rt, name, &[view.tx.snapshot]),
        "durable" => print_numbers(rt, name, &[view.turn.durable]),
        "thread" => print_maybe(rt, name, view.part.thread),
        "ended" => print_numbers(rt, name, view.part.ended.as_slice()),
        "drawn" => print_numbers(rt, name, view.drawn.as_slice()),
        _ => print_other(rt, view, name),
    }
}

fn print_other(rt: &HostRuntime, view: &View, name: &str) -> io::Result<()> {
    match name {
        "owned" => print_list(rt, name, view.tx.owned.as_slice()),
        "pinned" => print_list(rt, name, view.paging.pins.as_slice()),
        "read" => print_list(rt, name, view.tx.reads.as_slice()),
        "turn" => print_truth(rt, "turn yes", "turn no", view.turn.has_it),
        "spent" => print_truth(rt, "spent yes", "spent no", view.part.is_spent),
        "found" => print_found(rt, view),
        "number" => print_hand(rt, view),
        _ => print_no_command(rt),
    }
}

fn print_list(rt: &HostRuntime, name: &str, pairs: &[(u64, u64)]) -> io::Result<()> {
    print_pairs(rt, name, pairs)?;
    rt.println("")
}

fn print_truth(rt: &HostRuntime, yes: &str, no: &str, holds: bool) -> io::Result<()> {
    rt.println(if holds { yes } else { no })
}

/// The word that it found last.
fn print_found(rt: &HostRuntime, view: &View) -> io::Result<()> {
    match view.found {
        Some((word, number)) => println!(rt; "found {word:?} {number}"),
        None => rt.println("found none"),
    }
}

/// How far its number is, and that; of a void one its record and how many writes that has too.
fn print_hand(rt: &HostRuntime, view: &View) -> io::Result<()> {
    let hand = &view.tx.hand;
    if hand.void {
        let record = view.record();
        let numbers = [hand.number, record.number(), record.len()];
        print_numbers(rt, "number void, with record of writes", &numbers)
    } else if hand.decided {
        print_numbers(rt, "number decided", &[hand.number])
    } else {
        print_numbers(rt, "number undecided", &[hand.number])
    }
}
