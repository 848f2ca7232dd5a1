//! A number is decided, and its writes made.

ghost use Rattle.core_table.specs.Steps.{BelongsTo};
ghost use Rattle.std.specs.Prelude.{◌≡◌};
ghost use Rattle.stm_transactions.specs.Boxes.{HasBox};
ghost use Rattle.stm_transactions.specs.CommitRule.{GivesBack, OutlastsEnding};
ghost use Rattle.stm_transactions.specs.Settles.{Decides, IsPosted};

use crate::box_rule::BoxRule;
use crate::commit::Commit;
use crate::storing::{release_all, store_all, touch_all, unpin_all};
use core_table::event_table::Seat;
use core_table::stm::Stm;
use dude_base::redo::Redo;
use dude_base::write_list::WriteList;

/// Decides the number, makes its writes, and posts it.
pub fn settle<S, X, K, P: BoxRule<S, X, K>>(
    stm: &Stm<S, X, K, P>,
    seat: &mut Seat<S, X>,
    commit: &Commit,
    number: u64,
    frames: &WriteList,
)
    requires seat { BelongsTo stm.now.events seat.old }
    requires slots { OutlastsEnding P.fact stm.now.events }
    requires may { Decides commit.now number frames.now stm.now.events seat.old }
    requires place { seat.old.me.0.view.box.next ≡ commit.now.place }
    requires slot { HasBox P.taken stm.now.events seat.old }
    ensures gives { GivesBack P.taken stm.now.events seat.old seat.new }
    ensures posted { IsPosted stm.now.events.setup seat.old.me.0.view seat.new.me.0.view }
{
    let newest = commit.held.get(commit.held.len() - 1);
    stm.decide(seat, newest.at);
    store_all(stm, seat, commit.writes, frames);
    touch_all(stm, seat, number, frames);
    release_all(stm, seat, commit.held, number);
    unpin_all(stm, seat, frames);
    P::post(
        stm,
        seat,
        commit.thread,
        commit.place,
        Redo::of(number, commit.writes.copy()),
    );
}
