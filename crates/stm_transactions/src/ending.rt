//! A transaction ends: with its entry, or without one.

ghost use Rattle.core_table.specs.Steps.{BelongsTo};
ghost use Rattle.std.specs.Prelude.{◌≡◌, ◌<◌, length, IfOk, IfErr, OnErr};
ghost use Rattle.stm_transactions.specs.CommitEnds.{AsLost, Enters, HasEnded, IsLostBy, IsPinStop, OnlyUndoes};
ghost use Rattle.stm_transactions.specs.CommitRule.{OutlastsEnding};
ghost use Rattle.stm_transactions.specs.Draws.{RunsPinned};
ghost use Rattle.stm_transactions.specs.Owns.{OwnsHeld};
ghost use Rattle.stm_transactions.specs.Pins.{IsPinningAll, IsPinningOne};
ghost use Rattle.stm_transactions.specs.Seats.{Stays};

use crate::box_rule::BoxRule;
use crate::commit::Commit;
use crate::lost::Lost;
use crate::pages::let_go;
use crate::pinned::Pinned;
use crate::pinning::pin_all;
use crate::publishing::publish;
use crate::storing::{restore_all, unpin_all};
use core_table::event_table::Seat;
use core_table::served::Served;
use core_table::slot_rule::SlotRule;
use core_table::stm::Stm;
use dude_base::write_list::WriteList;
use word_space::stop::Stop;

// Takes all pins back, and gives all locks their old words. No number was drawn.
fn undo<S, X, K, P: SlotRule<S, X, K>>(
    stm: &Stm<S, X, K, P>,
    seat: &mut Seat<S, X>,
    held: &WriteList,
    frames: &WriteList,
)
    requires pinning { IsPinningAll frames.now seat.old.me.0.view }
    requires owned { OwnsHeld held.now seat.old.me.0.view }
    requires seat { BelongsTo stm.now.events seat.old }
    requires slots { OutlastsEnding P.fact stm.now.events }
    ensures stays { Stays stm.now.events seat.old seat.new }
    ensures view { OnlyUndoes seat.old seat.new }
{
    unpin_all(stm, seat, frames);
    restore_all(stm, seat, held);
}

/// Ends a transaction that drew no number: its locks get their old words, and no entry is made.
pub fn give_up<S, X, K, P: SlotRule<S, X, K>>(
    stm: &Stm<S, X, K, P>,
    seat: &mut Seat<S, X>,
    pinned: &Option<Pinned>,
    held: &WriteList,
)
    requires seat { BelongsTo stm.now.events seat.old }
    requires slots { OutlastsEnding P.fact stm.now.events }
    requires pinning { IsPinningOne pinned.now seat.old.me.0.view }
    requires owned { OwnsHeld held.now seat.old.me.0.view }
    ensures stays { Stays stm.now.events seat.old seat.new }
    ensures ended { HasEnded seat.old.me.0.view seat.new.me.0.view }
{
    let_go(stm, seat, pinned);
    restore_all(stm, seat, held);
}

// What a page that can't be pinned makes of a commit.
fn lost_of(stop: Stop) -> Lost
    requires { IsPinStop stop }
    ensures { AsLost stop result }
{
    match stop {
        Stop::Out { page } => Lost::Out { page },
        Stop::Busy { page, seen } => Lost::Busy { page, seen },
        _ => unreachable!(),
    }
}

/// Ends a transaction with its entry: at the snapshot where it wrote nothing, else with a number that
/// is drawn for its writes, whose pages are put into `frames`. Where it answers what lost it, its locks have their
/// old words, and no entry is made.
pub fn commit_all<S, X, K, P: BoxRule<S, X, K>>(
    stm: &Stm<S, X, K, P>,
    seat: &mut Seat<S, X>,
    commit: &Commit,
    pinned: &Option<Pinned>,
    served: &Served,
    frames: &mut WriteList,
) -> Result<u64, Lost>
    requires seat { BelongsTo stm.now.events seat.old }
    requires slots { OutlastsEnding P.fact stm.now.events }
    requires running { RunsPinned stm.now.events commit.now pinned.now seat.old }
    requires draws { 0 < length commit.now.writes.now → 0 < seat.old.me.0.view.draws }
    requires place { seat.old.me.0.view.box.next ≡ commit.now.place }
    ensures stays { Stays stm.now.events seat.old seat.new }
    ensures ok { IfOk result (Enters served.now commit.now stm.now.events seat.old seat.new) }
    ensures err { IfErr result (IsLostBy commit.now stm.now.events seat.old seat.new) }
    ensures wrote { OnErr result (0 < length commit.now.writes.now) }
{
    let_go(stm, seat, pinned);
    if commit.writes.len() == 0 {
        stm.finish(seat, served);
        return Ok(commit.snapshot);
    }
    frames.clear();
    if let Err(stop) = pin_all(stm, seat, commit.writes, frames) {
        undo(stm, seat, commit.held, frames);
        return Err(lost_of(stop));
    }
    publish(stm, seat, commit, served, frames)
}
