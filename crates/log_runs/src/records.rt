//! Redo records and bundles as a script says them.

ghost use Rattle.dude_base.specs.Sizes.{IsAccepted, sizes_for};
ghost use Rattle.std.specs.Prelude.{◌≡◌, ◌<◌, All, IsTrue, IfSome};

use crate::say::say_pair;
use dude_base::bundle::Bundle;
use dude_base::limits::MAX_NUMBER;
use dude_base::redo::Redo;
use dude_base::sizes::Sizes;
use dude_base::wide::Wide;
use dude_base::write::Write;
use group_combine::{Group, combine};
use redo_record::{cells_of, decode, encode};
use std::io;

/// How many words the home of the small image has.
pub const HOME: u64 = 960;

/// How many words the small image has: two rings of sixteen cells, and the home.
pub const WORDS: usize = 1232;

/// The sizes of the small image: 8 subscribers, room for 96 call forwardings, and two rings of sixteen cells.
pub fn small_sizes() -> Option<Sizes>
    ensures { IfSome result (λ s. (s ≡ sizes_for 8 96 2 16) × IsAccepted s) }
{
    Sizes::of(8, 96, 2, 16).ok()
}

/// A record of these writes, each a word and a value.
pub fn record_of(number: u64, writes: &[(u64, u64)]) -> Result<Redo, Wide> {
    let mut redo = Redo::new(number);
    for &(at, value) in writes {
        redo.push(Write { at, value })?;
    }
    Ok(redo)
}

/// Whether each write is one of a home word of the small image.
pub fn is_home(bundle: &Bundle) -> bool
    ensures { IsTrue result → All (λ w. w.at < HOME) bundle.now.writes }
{
    for k in 0..bundle.len() {
        if bundle.write_at(k).at >= HOME {
            return false;
        }
    }
    true
}

/// Overwrites the home by a bundle.
pub fn apply(bundle: &Bundle, home: &mut [u64]) {
    for k in 0..bundle.len() {
        let write = bundle.write_at(k);
        let at = write.at as usize;
        if at < home.len() {
            home[at] = write.value;
        }
    }
}

/// Prints the writes of a bundle, behind its first number and its last.
pub fn say_bundle(rt: HostRuntime, bundle: &Bundle) -> io::Result<()> {
    let (first, last) = (bundle.first(), bundle.last());
    print!(rt; "{first} to {last}:")?;
    for k in 0..bundle.len() {
        let write = bundle.write_at(k);
        say_pair(rt, write.at, write.value)?;
    }
    println!(rt)
}

/// Adds a record to a bundle, and prints the bundle, or why it doesn't take the record.
pub fn say_added(rt: HostRuntime, bundle: &mut Bundle, redo: &Redo) -> io::Result<()> {
    match bundle.add(redo) {
        Ok(()) => say_bundle(rt, bundle),
        Err(fault) => println!(rt; "{fault:?}"),
    }
}

/// Adds so many records without writes, of the numbers that follow, up to one that isn't taken, and prints what is made of it.
pub fn say_joined(rt: HostRuntime, bundle: &mut Bundle, count: u64) -> io::Result<()> {
    for _ in 0..count {
        let redo = Redo::new(bundle.last().saturating_add(1));
        if let Err(fault) = bundle.add(&redo) {
            return println!(rt; "{fault:?}");
        }
    }
    say_bundle(rt, bundle)
}

/// Prints how many cells a bundle has, and the words of each.
pub fn say_cells(rt: HostRuntime, bundle: &Bundle) -> io::Result<()> {
    let count = cells_of(bundle);
    println!(rt; "{count} cells")?;
    if bundle.first() < 1 || bundle.last() > MAX_NUMBER {
        return Ok(());
    }
    for cell in 0..count {
        let mut words = [9; 8];
        encode(bundle, cell, &mut words);
        println!(rt; "{words:?}")?;
    }
    Ok(())
}

/// Prints the bundle that these words hold.
pub fn say_decoded(rt: HostRuntime, words: &[u64]) -> io::Result<()> {
    match decode(words) {
        Ok(bundle) => say_bundle(rt, &bundle),
        Err(_) => rt.println("the words are no record's cells"),
    }
}

/// Prints the writes that stand for two records, of which the first has so many of these.
pub fn say_combined(rt: HostRuntime, count: u64, writes: &[(u64, u64)]) -> io::Result<()> {
    let (first, second) = writes.split_at(writes.len().min(count as usize));
    match (record_of(1, first), record_of(2, second)) {
        (Ok(first), Ok(second)) => say_both(rt, &first, &second),
        _ => rt.println("too many writes"),
    }
}

/// Prints the writes that stand for two records.
fn say_both(rt: HostRuntime, first: &Redo, second: &Redo) -> io::Result<()> {
    let mut group = Group::new(rt.alloc(), first.len() + second.len())?;
    combine(&[Bundle::one(first), Bundle::one(second)], &mut group);
    rt.print("writes")?;
    for k in 0..group.len() {
        let write = group.get(k);
        say_pair(rt, write.at, write.value)?;
    }
    println!(rt)
}
