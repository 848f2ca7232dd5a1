//! Whole calls of the back, made by a view call by call on the medium.

use crate::call_lists::{Numbers, append_calls, page_calls, reproduce_calls};
use crate::entries::VIEWS;
use crate::output::{print_call, print_no_command, print_numbers};
use crate::parts::numbers_in;
use crate::stage::Stage;
use dude_core::Event;
use dude_core::entry::Entry;
use pmem_trait::Call;
use std::alloc::{AllocError, Global};
use std::collections::BTreeMap;
use std::io;

/// Makes the calls of the whole call that the verb and the text name, up to the first that isn't allowed; prints that one, or how
/// many there are.
pub fn make_whole(
    rt: &HostRuntime,
    stage: &mut Stage,
    verb: &str,
    who: u64,
    text: &str,
) -> io::Result<()> {
    let numbers = numbers_in(rt.alloc(), text)?;
    match calls_of(rt.alloc(), stage, verb, numbers.as_slice())? {
        Some(calls) => make_calls(rt, stage, who, calls.as_slice()),
        None => print_no_command(rt),
    }
}

fn make_calls(rt: &HostRuntime, stage: &mut Stage, who: u64, calls: &[Call]) -> io::Result<()> {
    for call in calls {
        let word = stage.make(who, &Event::Device { call: *call });
        if word != "allowed" {
            rt.print(word)?;
            rt.print(": ")?;
            return print_call(rt, call);
        }
    }
    print_numbers(rt, "allowed", &[calls.len() as u64])
}

/// The calls of the whole call, if there is one of this verb with these numbers.
fn calls_of(
    alloc: Global,
    stage: &Stage,
    verb: &str,
    numbers: &[u64],
) -> Result<Option<Vec<Call>>, AllocError> {
    let calls = match (verb, numbers) {
        ("persists", [ring, number]) => persisting(alloc, stage, *ring, *number, *number)?,
        ("persists", [ring, first, last]) => persisting(alloc, stage, *ring, *first, *last)?,
        ("tells", [number]) => telling(alloc, *number)?,
        ("reproduces", [number]) => reproducing(alloc, stage, *number)?,
        ("reads", [page]) => page_calls(alloc, &stage.sizes(), *page)?,
        _ => return Ok(None),
    };
    Ok(Some(calls))
}

fn telling(alloc: Global, number: u64) -> Result<Vec<Call>, AllocError> {
    let mut calls = Vec::new(alloc);
    calls.push(Call::Tell(number))?;
    Ok(calls)
}

/// The calls that append the bundle of these numbers behind the last one of the ring.
fn persisting(
    alloc: Global,
    stage: &Stage,
    ring: u64,
    first: u64,
    last: u64,
) -> Result<Vec<Call>, AllocError> {
    let writes = written(alloc, stage, first, last)?;
    let cell = (ring, stage.next_slot(ring).unwrap_or(0));
    let numbers = Numbers { first, last };
    append_calls(alloc, &stage.sizes(), cell, numbers, writes.as_slice())
}

/// What the entries with these numbers wrote, each word once.
fn written(
    alloc: Global,
    stage: &Stage,
    first: u64,
    last: u64,
) -> Result<Vec<(u64, u64)>, AllocError> {
    let mut writes = Vec::new(alloc);
    for number in first..=last {
        for who in 0..VIEWS {
            if let Some(view) = stage.core.view(who) {
                add_written(&mut writes, &view.entries, number)?;
            }
        }
    }
    Ok(writes)
}

fn add_written(
    writes: &mut Vec<(u64, u64)>,
    entries: &Vec<Entry>,
    number: u64,
) -> Result<(), AllocError> {
    for entry in entries {
        if entry.wrote && entry.number == number {
            for k in 0..entry.writes.len() {
                let write = entry.writes.get(k);
                put_write(writes, write.at, write.value)?;
            }
        }
    }
    Ok(())
}

/// Puts a value in place of that of the same word, or last.
fn put_write(writes: &mut Vec<(u64, u64)>, at: u64, value: u64) -> Result<(), AllocError> {
    for write in writes.iter_mut() {
        if write.0 == at {
            write.1 = value;
            return Ok(());
        }
    }
    writes.push((at, value))?;
    Ok(())
}

/// The calls that put home what waits up to the number.
fn reproducing(alloc: Global, stage: &Stage, number: u64) -> Result<Vec<Call>, AllocError> {
    let store = stage.core.store();
    let mut words = BTreeMap::new(alloc);
    let mut end = store.reproduced();
    // Each turn goes on by one bundle.
    for _ in store.waiting() {
        for bundle in store.waiting() {
            let redo = bundle.redo();
            if redo.first() == end.saturating_add(1) && redo.last() <= number {
                for k in 0..redo.len() {
                    let write = redo.write_at(k);
                    words.insert(write.at, write.value)?;
                }
                end = redo.last();
            }
        }
    }
    let mut writes = Vec::new(alloc);
    for (at, value) in &words {
        writes.push((*at, *value))?;
    }
    reproduce_calls(alloc, &stage.sizes(), writes.as_slice(), number)
}
