//! The kinds of step that the first history doesn't have: a lock is given back, and a page is
//! dropped.

ghost use Rattle.core_runs.specs.Views.{Stands, alone, given_back, dropped};
ghost use Rattle.std.specs.Prelude.{◌≡◌, OnOk};

use crate::history::Small;
use crate::trouble::{Trouble, expect};
use core_table::event_table::Seat;
use core_table::served::Served;
use tatp_model::reply::Reply;
use tatp_model::request::Request;

/// A transaction extends its snapshot, takes a lock and gives it back.
pub fn give_back(stm: &Small, seat: &mut Seat<(), ()>) -> Result<(), Trouble>
    requires { Stands stm.now.events seat.old alone }
    ensures { OnOk result (Stands stm.now.events seat.new given_back) }
{
    expect(stm.clock(seat), 0)?;
    expect(stm.extend(seat), 0)?;
    expect(stm.look(seat, 0), 0)?;
    expect(stm.take(seat, 0, 0, 0), 0)?;
    stm.restore(seat, 0, 0);
    let served = Served {
        file: 0,
        index: 0,
        request: &Request::Sync,
        reply: &Reply::Durable,
    };
    expect(stm.finish(seat, &served), 1)
}

/// The thread takes the turn and makes a page absent.
pub fn drop_page(stm: &Small, seat: &mut Seat<(), ()>) -> Result<(), Trouble>
    requires { Stands stm.now.events seat.old given_back }
    ensures view { OnOk result (seat.new.me.0.view ≡ dropped) }
{
    expect(stm.take_turn(seat, 0), 0)?;
    expect(stm.entry(seat, 0), 65_536)?;
    expect(stm.evict(seat, 0, 65_536), 65_536)?;
    expect(stm.load_touch(seat, 0), 0)?;
    stm.give_turn(seat, false);
    Ok(())
}
