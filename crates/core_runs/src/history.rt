//! A short history: a thread reads a word, writes it, and settles its record.

ghost use Rattle.core_runs.specs.Views.{Stands, one_write, entered, looked, read_out, ready, decided, posted, emptied, settled, joined, read_back};
ghost use Rattle.std.specs.Prelude.{◌≡◌, OnOk};

use crate::trouble::{Trouble, expect};
use core_table::event_table::Seat;
use core_table::foreseen::law_of_foreseen;
use core_table::served::Served;
use core_table::slot_rule::AnySlots;
use core_table::stm::Stm;
use core_table::terms::Terms;
use dude_base::write_list::WriteList;
use tatp_model::reply::Reply;
use tatp_model::request::Request;

/// The machine of a short history, with nothing in its slots.
pub type Small = Stm<(), (), Terms, AnySlots>;

/// A transaction begins, pins the page of the word 3 and looks at its lock.
pub fn begin(stm: &Small, seat: &mut Seat<(), ()>) -> Result<(), Trouble>
    requires { Stands stm.now.events seat.old entered }
    ensures { OnOk result (Stands stm.now.events seat.new looked) }
{
    expect(stm.clock(seat), 0)?;
    expect(stm.entry(seat, 0), 65_536)?;
    expect(stm.pin(seat, 0, 65_536), 65_536)?;
    expect(stm.look(seat, 0), 0)
}

/// It loads the word, confirms it and ends.
pub fn read(stm: &Small, seat: &mut Seat<(), ()>) -> Result<(), Trouble>
    requires { Stands stm.now.events seat.old looked }
    ensures { OnOk result (Stands stm.now.events seat.new read_out) }
{
    let served = Served {
        file: 0,
        index: 0,
        request: &Request::Sync,
        reply: &Reply::Durable,
    };
    expect(stm.load(seat, 3, 0), 0)?;
    expect(stm.check(seat, 0), 0)?;
    expect(stm.unpin(seat, 0), 65_537)?;
    expect(stm.finish(seat, &served), 2)
}

/// Another transaction sees an empty box and pins the page.
pub fn begin_again(stm: &Small, seat: &mut Seat<(), ()>) -> Result<(), Trouble>
    requires { Stands stm.now.events seat.old read_out }
    ensures { OnOk result (Stands stm.now.events seat.new ready) }
{
    expect(stm.see_box(seat, 0, 0), 0)?;
    expect(stm.clock(seat), 0)?;
    expect(stm.entry(seat, 0), 65_536)?;
    expect(stm.pin(seat, 0, 65_536), 65_536)
}

/// It takes the lock, draws a number for the writes and decides it.
pub fn own(stm: &Small, seat: &mut Seat<(), ()>, writes: &WriteList) -> Result<(), Trouble>
    requires stands { Stands stm.now.events seat.old ready }
    requires writes { writes.now ≡ one_write }
    ensures { OnOk result (Stands stm.now.events seat.new decided) }
{
    expect(stm.look(seat, 0), 0)?;
    expect(stm.take(seat, 0, 0, 0), 0)?;
    let served = Served {
        file: 0,
        index: 1,
        request: &Request::Sync,
        reply: &Reply::Durable,
    };
    expect(stm.draw(seat, &served, writes), 0)?;
    expect(stm.decide(seat, 0), 1)
}

/// It stores its value and posts its record.
pub fn publish(stm: &Small, seat: &mut Seat<(), ()>) -> Result<(), Trouble>
    requires { Stands stm.now.events seat.old decided }
    ensures { OnOk result (Stands stm.now.events seat.new posted) }
{
    stm.store(seat, 3, 0, 7);
    stm.touch(seat, 0, 1);
    stm.release(seat, 0, 1);
    expect(stm.unpin(seat, 0), 65_537)?;
    stm.post(seat, 0, 0, 1);
    Ok(())
}

/// The thread takes the turn and empties its box.
pub fn empty(stm: &Small, seat: &mut Seat<(), ()>) -> Result<(), Trouble>
    requires { Stands stm.now.events seat.old posted }
    ensures { OnOk result (Stands stm.now.events seat.new emptied) }
{
    law_of_foreseen::<(), (), Terms, AnySlots>();
    expect(stm.take_turn(seat, 0), 0)?;
    expect(stm.see_full(seat, 0, 0), 1)?;
    stm.empty_box(seat, 0, 0);
    expect(stm.see_box(seat, 0, 0), 0)
}

/// It raises both numbers and gives the turn back.
pub fn settle(stm: &Small, seat: &mut Seat<(), ()>)
    requires { Stands stm.now.events seat.old emptied }
    ensures { Stands stm.now.events seat.new settled }
{
    law_of_foreseen::<(), (), Terms, AnySlots>();
    stm.raise_durable(seat, 1);
    stm.raise_reproduced(seat, 1);
    stm.give_turn(seat, false);
}

/// A later transaction finds the value.
pub fn read_again(stm: &Small, seat: &mut Seat<(), ()>) -> Result<(), Trouble>
    requires { Stands stm.now.events seat.old joined }
    ensures view { OnOk result (seat.new.me.0.view ≡ read_back) }
{
    expect(stm.clock(seat), 1)?;
    expect(stm.entry(seat, 0), 65_536)?;
    expect(stm.pin(seat, 0, 65_536), 65_536)?;
    expect(stm.look(seat, 0), 2)?;
    expect(stm.load(seat, 3, 0), 7)?;
    expect(stm.check(seat, 0), 2)
}
