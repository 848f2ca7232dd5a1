//! The entries of views.

use crate::events::{reading, updating};
use crate::output::{print_numbers, print_pair, print_pairs};
use crate::stage::Stage;
use dude_core::entry::Entry;
use dude_core::view::View;
use std::io;
use tatp_model::reply::Reply;

/// No script has more views.
pub const VIEWS: u64 = 16;

/// Prints the entries of all views, view by view, and how many there are.
pub fn print_all_entries(rt: &HostRuntime, stage: &Stage) -> io::Result<()> {
    let mut count = 0_u64;
    for who in 0..VIEWS {
        if let Some(view) = stage.core.view(who) {
            count = count.saturating_add(print_entries(rt, who, view)?);
        }
    }
    print_numbers(rt, "entries", &[count])
}

/// Prints the entries of a view in their order, and counts them.
fn print_entries(rt: &HostRuntime, who: u64, view: &View) -> io::Result<u64> {
    let mut count = 0_u64;
    for entry in &view.entries {
        print_entry(rt, who, entry)?;
        count = count.saturating_add(1);
    }
    Ok(count)
}

fn print_entry(rt: &HostRuntime, who: u64, entry: &Entry) -> io::Result<()> {
    let number = entry.number;
    let index = entry.about.index;
    let kind = kind_of(entry);
    print!(rt; "view {who} at {number}: {kind} {index}")?;
    print_pairs(rt, ", reads", entry.reads.as_slice())?;
    print_writes(rt, entry)?;
    rt.println("")
}

fn print_writes(rt: &HostRuntime, entry: &Entry) -> io::Result<()> {
    if entry.writes.len() == 0 {
        return rt.print(", writes none");
    }
    rt.print(", writes")?;
    for k in 0..entry.writes.len() {
        let write = entry.writes.get(k);
        print_pair(rt, write.at, write.value)?;
    }
    Ok(())
}

/// Whether it is of the update of its place in file 0, and wrote, or of the request there that only reads, and didn't.
fn kind_of(entry: &Entry) -> &'static str {
    let about = &entry.about;
    let (request, reply, kind) = if entry.wrote {
        (updating(about.index), Reply::Changed, "update")
    } else {
        (reading(about.index), Reply::Missing, "request")
    };
    if about.file == 0 && about.request == request && about.reply == reply {
        kind
    } else {
        "another entry"
    }
}
