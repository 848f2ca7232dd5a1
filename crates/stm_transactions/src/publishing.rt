//! A number is drawn for the writes, and decided or void.

ghost use Rattle.core_events.specs.Events.{draw};
ghost use Rattle.core_table.specs.Steps.{BelongsTo};
ghost use Rattle.std.specs.Prelude.{◌≡◌, ◌<◌, length, IfOk, IfErr};
ghost use Rattle.stm_transactions.specs.CommitEnds.{Enters, IsLostBy};
ghost use Rattle.stm_transactions.specs.CommitRule.{OutlastsEnding};
ghost use Rattle.stm_transactions.specs.Draws.{RunsPaged};
ghost use Rattle.stm_transactions.specs.Pages.{ArePagesOf};
ghost use Rattle.stm_transactions.specs.Seats.{Stays};

use crate::bad_lock::BadLock;
use crate::box_rule::BoxRule;
use crate::commit::Commit;
use crate::lost::Lost;
use crate::settling::settle;
use crate::storing::{restore_all, unpin_all};
use crate::validating::validate;
use core_table::event_table::Seat;
use core_table::served::Served;
use core_table::stm::Stm;
use dude_base::redo::Redo;
use dude_base::write_list::WriteList;

/// Draws a number for the writes, whose pages are pinned, checks the reads, and makes the writes. Where the lock of a read
/// isn't good all locks get their old words, and the number is posted as void: `Conflict`.
pub fn publish<S, X, K, P: BoxRule<S, X, K>>(
    stm: &Stm<S, X, K, P>,
    seat: &mut Seat<S, X>,
    commit: &Commit,
    served: &Served,
    frames: &WriteList,
) -> Result<u64, Lost>
    requires seat { BelongsTo stm.now.events seat.old }
    requires slots { OutlastsEnding P.fact stm.now.events }
    requires running { RunsPaged stm.now.events commit.now frames.now seat.old }
    requires some { 0 < length commit.now.writes.now }
    requires draws { 0 < seat.old.me.0.view.draws }
    requires pages { ArePagesOf commit.now.writes.now frames.now }
    requires place { seat.old.me.0.view.box.next ≡ commit.now.place }
    ensures stays { Stays stm.now.events seat.old seat.new }
    ensures ok { IfOk result (Enters served.now commit.now stm.now.events seat.old seat.new) }
    ensures err { IfErr result (IsLostBy commit.now stm.now.events seat.old seat.new) }
{
    let number = P::draw(stm, seat, served, commit.writes) + 1;
    if let Err(BadLock { lock, seen }) = validate(
        stm,
        seat,
        commit.thread,
        commit.snapshot,
        commit.reads,
    ) {
        restore_all(stm, seat, commit.held);
        unpin_all(stm, seat, frames);
        P::post(stm, seat, commit.thread, commit.place, Redo::new(number));
        return Err(Lost::Conflict { lock, seen, number });
    }
    settle(stm, seat, commit, number, frames);
    Ok(number)
}
