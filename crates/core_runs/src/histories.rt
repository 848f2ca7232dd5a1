//! Histories of steps of running transactions, from a new table on.

ghost use Rattle.core_runs.specs.Views.{Stands, two, told_all, one_write, entered, settled};
ghost use Rattle.core_table.specs.Seats.{opener};
ghost use Rattle.std.specs.Prelude.{◌≡◌, IfOk, OnOk};

use crate::history::{Small, begin, begin_again, empty, own, publish, read, read_again, settle};
use crate::others::{drop_page, give_back};
use crate::output::{print_no_command, print_numbers};
use crate::trouble::{Trouble, expect};
use core_table::event_table::Seat;
use core_table::stm::Stm;
use core_table::terms::Terms;
use dude_base::write::Write;
use dude_base::write_list::WriteList;
use std::alloc::{AllocError, Global};
use std::io;

/// Carries out the history of this name, and prints whether it came to its end.
pub fn print_history(rt: &HostRuntime, name: &str) -> io::Result<()> {
    let ended = match name {
        "write" => whole(rt.alloc()),
        "drop" => others(rt.alloc()),
        _ => return print_no_command(rt),
    };
    match ended {
        Ok(()) => rt.println("as expected"),
        Err(Trouble::Odd { found, wanted }) => {
            print_numbers(rt, "found, and wanted", &[found, wanted])
        }
        Err(Trouble::NoMemory) => rt.println("no memory"),
    }
}

/// A second seat is split off, which draws nothing, and is joined again behind the first one's
/// transactions.
fn whole(alloc: Global) -> Result<(), Trouble> {
    let (stm, mut seat) = opened(alloc)?;
    let mut other = stm.split(&mut seat, 0);
    expect(stm.number(&mut seat), 0)?;
    expect(stm.number(&mut other), 1)?;
    write_once(&stm, &mut seat)?;
    stm.join(&mut seat, other);
    read_again(&stm, &mut seat)
}

/// A transaction reads, another one writes, and its record is settled.
fn write_once(stm: &Small, seat: &mut Seat<(), ()>) -> Result<(), Trouble>
    requires { Stands stm.now.events seat.old entered }
    ensures { OnOk result (Stands stm.now.events seat.new settled) }
{
    begin(stm, seat)?;
    read(stm, seat)?;
    begin_again(stm, seat)?;
    own(stm, seat, &one_write())?;
    publish(stm, seat)?;
    empty(stm, seat)?;
    settle(stm, seat);
    Ok(())
}

/// One seat gives a lock back, and drops a page.
fn others(alloc: Global) -> Result<(), Trouble> {
    let (stm, mut seat) = opened(alloc)?;
    give_and_drop(&stm, &mut seat)
}

/// A seat takes the number of its thread, gives a lock back and drops a page.
fn give_and_drop(stm: &Small, seat: &mut Seat<(), ()>) -> Result<(), Trouble>
    requires { Stands stm.now.events seat.old (opener two) }
{
    expect(stm.number(seat), 0)?;
    give_back(stm, seat)?;
    drop_page(stm, seat)
}

/// A new table of the smallest size, and its first seat.
fn opened(alloc: Global) -> Result<(Small, Seat<(), ()>), Trouble>
    ensures { IfOk result (λ r. Stands r.0.events r.1 (opener two)) }
{
    let terms = smallest(alloc)?;
    Ok(Stm::new(alloc, &terms, &terms, Vec::new(alloc))?)
}

/// Two threads, and one of each other thing.
fn smallest(alloc: Global) -> Result<Terms, AllocError>
    ensures { IfOk result (λ terms. told_all terms ≡ two) }
{
    Ok(Terms {
        threads: 2,
        locks: 1,
        pages: 1,
        frames: 1,
        boxes: 1,
        opening: vec![in alloc; 0u64; 64]?,
        first: 0,
    })
}

/// The value 7 for the word 3.
fn one_write() -> WriteList
    ensures { result ≡ one_write }
{
    let mut writes = WriteList::new();
    let put = writes.put(Write { at: 3, value: 7 });
    prove!(put.is_ok());
    writes
}
