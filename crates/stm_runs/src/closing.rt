//! What is printed of what transactions left.

use crate::images::crashed;
use pmem_fake::MemPmem;
use pmem_trait::{Call, Medium};
use script_words::say_changed;
use std::io;
use tiny_stm::closed::Closed;
use tiny_stm::posted::Posted;

/// Prints what transactions left: the numbers, the records that stood in boxes, which home words in memory aren't the opening ones,
/// the calls on the medium since they began, and what the two extreme images recover to.
pub fn say_closed(
    rt: HostRuntime,
    closed: Closed<MemPmem>,
    opening: &[u64],
    began: u64,
) -> io::Result<()> {
    let Closed {
        back,
        rest,
        words,
        number,
    } = closed;
    let (durable, reproduced) = (back.durable(), back.reproduced());
    let state = if back.is_dead() { "dead" } else { "alive" };
    println!(rt;
        "closed at {number}: durable {durable}, reproduced {reproduced}, the back is {state}"
    )?;
    for posted in &rest {
        say_posted(rt, posted)?;
    }
    rt.print("words in memory:")?;
    say_changed(rt, opening, &words)?;
    let medium = back.into_medium();
    say_calls(rt, &medium, began)?;
    for later in [false, true] {
        say_image(rt, &medium, opening, later)?;
    }
    Ok(())
}

/// Prints a record that stood in a box.
fn say_posted(rt: HostRuntime, posted: &Posted) -> io::Result<()> {
    let (ring, redo) = (posted.ring, &posted.redo);
    let number = redo.number();
    print!(rt; "in a box of ring {ring}: number {number},")?;
    for k in 0..redo.len() {
        let write = redo.write_at(k);
        let (at, value) = (write.at, write.value);
        print!(rt; " {at}={value}")?;
    }
    rt.println("")
}

/// Prints how many calls of each kind were made since this moment, and the last number told.
fn say_calls(rt: HostRuntime, medium: &MemPmem, began: u64) -> io::Result<()> {
    let mut counts = [0_u64; 5];
    let mut told = None;
    for made in medium.made().get(began as usize..).unwrap_or_default() {
        let kind = match made.call {
            Call::Read(_) => 0,
            Call::Put { .. } => 1,
            Call::Flush(_) => 2,
            Call::Fence => 3,
            Call::Tell(number) => {
                told = Some(number);
                4
            }
        };
        counts[kind] = counts[kind].saturating_add(1);
    }
    let [reads, puts, flushes, fences, tells] = counts;
    let calls = medium.now().saturating_sub(began);
    print!(rt;
        "{calls} calls: {reads} reads, {puts} puts, {flushes} flushes, {fences} fences, {tells} tells"
    )?;
    match told {
        Some(number) => println!(rt; ", the last one of {number}"),
        None => rt.println(""),
    }
}

/// Prints to what an extreme image of a crash now recovers: the number, and the words that aren't the opening ones.
fn say_image(rt: HostRuntime, medium: &MemPmem, opening: &[u64], later: bool) -> io::Result<()> {
    let values = if later { "later" } else { "settled" };
    match crashed(rt.alloc(), medium, medium.now(), later) {
        Some((number, home)) => {
            print!(rt; "{values} values: number {number},")?;
            say_changed(rt, opening, &home)
        }
        None => println!(rt; "{values} values: not recovered"),
    }
}
