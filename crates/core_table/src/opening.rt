//! A table is made, with the words of the state at the start.

ghost use Rattle.core_events.specs.Partings.{first_entries, start};
ghost use Rattle.core_events.specs.Setups.{IsSetup, entry_with};
ghost use Rattle.core_table.specs.Places.{flat};
ghost use Rattle.core_table.specs.Steps.{MayOpen, IsOpened};
ghost use Rattle.std.specs.Prelude.{◌≡◌, ◌+◌, ◌*◌, ◌≤◌, ◌^◌, ◌++◌, replicate, IfOk, IfErr, OnOk, if◌then◌else◌, ltb};

use crate::event_table::{EventTable, Opened};
use crate::places::ENTRY;
use crate::slot_rule::SlotRule;
use crate::terms::Terms;
use atomic_table::{Refused, Table};
use dude_base::limits::PAGE;
use std::alloc::{AllocError, Global};

impl<S, X, K, P: SlotRule<S, X, K>> EventTable<S, X, K, P> {
    /// The table of this key at the start, with the sizes and words of these terms, these slots,
    /// and its first seat. Where memory is wanting the slots come back.
    pub fn new(alloc: Global, key: &K, terms: &Terms, slots: Vec<S>) -> Opened<Self, S, X>
        requires may { MayOpen P.setup P.fact P.beside key.now terms.now slots.items }
        ensures ok { IfOk result (λ r. IsOpened P.setup P.beside r.0 key.now r.1) }
        ensures err { IfErr result (λ r. r.slots.items ≡ slots.items) }
    {
        let Ok(words) = start_words(alloc, terms) else {
            return Err(Refused { slots });
        };
        let (table, seat) = Table::new(alloc, words.as_slice(), slots, key)?;
        let table = EventTable {
            table,
            threads: terms.threads,
            locks: terms.locks,
            pages: terms.pages,
            frames: terms.frames,
            boxes: terms.boxes,
        };
        Ok((table, seat))
    }
}

/// The words of the state at the start.
fn start_words(alloc: Global, terms: &Terms) -> Result<Vec<u64>, AllocError>
    requires setup { IsSetup terms.now }
    requires pages { terms.now.pages ≤ 2 ^ 32 }
    ensures { IfOk result (λ words. words.items ≡ flat (start terms.now)) }
{
    let first = terms.first;
    let mut words = Vec::new(alloc);
    words.extend_from_slice(&[0, first, 0, first, first])?;
    repeat(&mut words, 2 * first, terms.locks)?;
    push_entries(&mut words, terms.frames, terms.pages)?;
    repeat(&mut words, first, terms.pages)?;
    words.extend_from_slice(&terms.opening[..(terms.frames * PAGE) as usize])?;
    repeat(&mut words, 0, terms.threads * terms.boxes)?;
    Ok(words)
}

/// One word so many times.
fn repeat(words: &mut Vec<u64>, word: u64, times: u64) -> Result<(), AllocError>
    ensures { OnOk result (words.new.items ≡ words.old.items ++ replicate times word) }
{
    for _ in 0..times {
        words.push(word)?;
    }
    Ok(())
}

/// The entries of the pages, of which the first are in frames.
fn push_entries(words: &mut Vec<u64>, frames: u64, pages: u64) -> Result<(), AllocError>
    requires { pages ≤ 2 ^ 32 }
    ensures { OnOk result (words.new.items ≡ words.old.items ++ first_entries frames 0 pages) }
{
    for page in 0..pages {
        words.push(first_entry(page, frames))?;
    }
    Ok(())
}

fn first_entry(page: u64, frames: u64) -> u64
    requires { page ≤ 2 ^ 32 }
    ensures { result ≡ (if ltb page frames then entry_with page 0 else 0) }
{
    if page < frames { (page + 1) * ENTRY } else { 0 }
}
