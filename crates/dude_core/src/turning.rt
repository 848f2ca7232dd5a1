//! What becomes of a view by the events of boxes and of the turn.

ghost use Rattle.core_events.specs.Conditions.{May};
ghost use Rattle.core_events.specs.Events.{see_box, post, take_turn, give_turn, see_full, name, view_after};
ghost use Rattle.core_events.specs.Setups.{box_of};
ghost use Rattle.core_events.specs.Telling.{IsSeated};
ghost use Rattle.dude_core.specs.Moves.{Advances};
ghost use Rattle.dude_core.specs.Named.{word_of, of_turn};
ghost use Rattle.std.specs.Prelude.{◌≡◌, ◌<◌};

use crate::about::About;
use crate::deed::TurnDeed;
use crate::setup::Setup;
use crate::view::View;
use crate::word::Word;
use dude_base::write_list::WriteList;
use std::alloc::AllocError;
use tatp_model::reply::Reply;
use tatp_model::request::Request;

/// Makes an event of a box or of the turn, where it found this in its word.
pub(crate) fn turn(
    view: &mut View,
    z: &Setup,
    deed: &TurnDeed,
    word: Word,
    found: u64,
) -> Result<(), AllocError>
    requires seated { IsSeated z.now view.old }
    requires may { May z.now (of_turn deed.now) view.old }
    requires name { word_of word ≡ name z.now (of_turn deed.now) view.old }
    ensures { Advances result z.now (of_turn deed.now) view.old found view.new }
{
    match deed {
        TurnDeed::SeeBox => see_box(view, z, word, found),
        TurnDeed::Post => post(view, z, found),
        TurnDeed::TakeTurn => take_turn(view, z, found),
        TurnDeed::GiveTurn { failed } => give_turn(view, z, *failed, found),
        TurnDeed::SeeFull { thread, place } => {
            see_full(view, z, *thread, *place, word, found)?;
        }
        TurnDeed::EmptyBox { thread, place } => {
            view.turn.full.remove(z.box_of(*thread, *place));
        }
        TurnDeed::RaiseDurable { value } => view.turn.durable = *value,
        TurnDeed::RaiseReproduced { value: _ } => {}
    }
    Ok(())
}

fn see_box(view: &mut View, z: &Setup, word: Word, found: u64)
    requires name { word_of word ≡ name z.now see_box view.old }
    ensures { view.new ≡ view_after z.now see_box view.old found }
{
    view.drop_transaction();
    view.boxes.is_empty = found == 0;
    view.notice(word, found);
}

fn post(view: &mut View, z: &Setup, found: u64)
    requires { view.old.box.next < z.now.boxes }
    ensures { view.new ≡ view_after z.now post view.old found }
{
    view.drop_transaction();
    view.tx.hand.number = 0;
    view.tx.hand.decided = false;
    view.tx.hand.void = false;
    view.tx.hand.about = About::new(0, 0, Request::Sync, Reply::Durable);
    view.tx.hand.writes = WriteList::new();
    view.tx.hand.stored.clear();
    view.paging.touched.clear();
    view.boxes.next = z.place_behind(view.boxes.next);
    view.boxes.is_empty = false;
}

fn take_turn(view: &mut View, z: &Setup, found: u64)
    ensures { view.new ≡ view_after z.now take_turn view.old found }
{
    if found != 0 {
        view.notice(Word::Turn, found);
        return;
    }
    view.paging.entries.clear();
    view.turn.has_it = true;
    view.turn.count = view.turn.count.saturating_add(1);
    view.turn.full.clear();
    view.turn.touches.clear();
    view.turn.filled.clear();
}

fn give_turn(view: &mut View, z: &Setup, failed: bool, found: u64)
    ensures { view.new ≡ view_after z.now (give_turn failed) view.old found }
{
    view.turn.has_it = false;
    view.turn.met_fault = view.turn.met_fault || failed;
}

fn see_full(
    view: &mut View,
    z: &Setup,
    thread: u64,
    place: u64,
    word: Word,
    found: u64,
) -> Result<(), AllocError>
    requires thread { thread < z.now.threads }
    requires place { place < z.now.boxes }
    requires name { word_of word ≡ name z.now (see_full thread place) view.old }
    ensures { Advances result z.now (see_full thread place) view.old found view.new }
{
    if found != 0 {
        view.turn.full.put_first(z.box_of(thread, place), found)?;
    }
    view.notice(word, found);
    Ok(())
}
