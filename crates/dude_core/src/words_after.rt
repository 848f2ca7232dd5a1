//! What an event of a view makes of the word that it finds.

ghost use Rattle.core_events.specs.Conditions.{May};
ghost use Rattle.core_events.specs.Events.{take_turn, pin, evict, word_after, thread_of};
ghost use Rattle.core_events.specs.Telling.{IsSeated, WordTold, EntryTold};
ghost use Rattle.dude_base.specs.declared.limits.TheConstants.{MAX_NUMBER};
ghost use Rattle.dude_core.specs.Moves.{word_taken};
ghost use Rattle.dude_core.specs.Named.{event_of, of_read, of_write, of_turn, of_page};
ghost use Rattle.std.specs.Prelude.{◌≡◌, ◌*◌, ◌<◌, ◌≤◌};

use crate::deed::{Deed, PageDeed, ReadDeed, TurnDeed, WriteDeed};
use crate::setup::Setup;
use crate::view::View;

/// What becomes of the word that was found.
pub fn word_after(view: &View, z: &Setup, deed: &Deed, found: u64) -> u64
    requires seated { IsSeated z.now view.now }
    requires may { May z.now (event_of deed.now) view.now }
    requires told { WordTold z.now (event_of deed.now) view.now found }
    ensures { result ≡ word_after (event_of deed.now) view.now found }
{
    match deed {
        Deed::Read(deed) => after_read(view, z, deed, found),
        Deed::Write(deed) => after_write(view, z, deed, found),
        Deed::Turn(deed) => after_turn(view, z, deed, found),
        Deed::Page(deed) => after_page(view, z, deed, found),
    }
}

fn after_read(view: &View, z: &Setup, deed: &ReadDeed, found: u64) -> u64
    requires told { WordTold z.now (of_read deed.now) view.now found }
    ensures { result ≡ word_after (of_read deed.now) view.now found }
{
    let _limits = z.threads();
    match deed {
        ReadDeed::Number => found + 1,
        ReadDeed::Begin => found,
        ReadDeed::Extend => found,
        ReadDeed::Look { lock: _ } => found,
        ReadDeed::Load { at: _ } => found,
        ReadDeed::Check { lock: _ } => found,
        ReadDeed::Finish { about: _ } => found,
    }
}

fn after_write(view: &View, z: &Setup, deed: &WriteDeed, found: u64) -> u64
    requires seated { IsSeated z.now view.now }
    requires may { May z.now (of_write deed.now) view.now }
    requires told { WordTold z.now (of_write deed.now) view.now found }
    ensures { result ≡ word_after (of_write deed.now) view.now found }
{
    match deed {
        WriteDeed::Take { lock: _ } => taken_word(view, z, found),
        WriteDeed::Draw {
            about: _,
            writes: _,
        } => found + 1,
        WriteDeed::Decide => found,
        WriteDeed::Store { at } => view.tx.hand.writes.find(*at).unwrap_or(found),
        WriteDeed::Release { lock: _ } => released_word(view),
        WriteDeed::Restore { lock } => view.tx.owned.find(*lock).unwrap_or(found),
    }
}

fn taken_word(view: &View, z: &Setup, found: u64) -> u64
    requires { thread_of view.now < z.now.threads }
    ensures { result ≡ word_taken view.now found }
{
    let _limits = z.threads();
    if found == view.looked_word() {
        2 * view.thread() + 1
    } else {
        found
    }
}

fn released_word(view: &View) -> u64
    requires { view.now.tx.hand.number ≤ MAX_NUMBER }
    ensures { result ≡ 2 * view.now.tx.hand.number }
{
    2 * view.tx.hand.number
}

fn after_turn(view: &View, z: &Setup, deed: &TurnDeed, found: u64) -> u64
    requires seated { IsSeated z.now view.now }
    requires may { May z.now (of_turn deed.now) view.now }
    ensures { result ≡ word_after (of_turn deed.now) view.now found }
{
    match deed {
        TurnDeed::SeeBox => found,
        TurnDeed::Post => view.tx.hand.number,
        TurnDeed::TakeTurn => turn_word(view, z, found),
        TurnDeed::GiveTurn { failed: _ } => 0,
        TurnDeed::SeeFull {
            thread: _,
            place: _,
        } => found,
        TurnDeed::EmptyBox {
            thread: _,
            place: _,
        } => 0,
        TurnDeed::RaiseDurable { value } => *value,
        TurnDeed::RaiseReproduced { value } => *value,
    }
}

fn turn_word(view: &View, z: &Setup, found: u64) -> u64
    requires { thread_of view.now < z.now.threads }
    ensures { result ≡ word_after take_turn view.now found }
{
    let _limits = z.threads();
    if found == 0 { view.thread() + 1 } else { found }
}

fn after_page(view: &View, z: &Setup, deed: &PageDeed, found: u64) -> u64
    requires may { May z.now (of_page deed.now) view.now }
    requires told { WordTold z.now (of_page deed.now) view.now found }
    ensures { result ≡ word_after (of_page deed.now) view.now found }
{
    match deed {
        PageDeed::Entry { page: _ } => found,
        PageDeed::Pin { page } => pinned_word(view, z, *page, found),
        PageDeed::Unpin { page: _ } => found.saturating_sub(1),
        PageDeed::Touch { page: _ } => found.max(view.tx.hand.number),
        PageDeed::LoadTouch { page: _ } => found,
        PageDeed::Evict { page } => evicted_word(view, *page, found),
        PageDeed::Fill { filling } => filling.value,
        PageDeed::Show { page: _, frame } => z.entry_of(*frame),
    }
}

fn pinned_word(view: &View, z: &Setup, page: u64, found: u64) -> u64
    requires { EntryTold z.now found }
    ensures { result ≡ word_after (pin page) view.now found }
{
    let _limits = z.threads();
    if found == view.kept_entry(page) {
        found + 1
    } else {
        found
    }
}

fn evicted_word(view: &View, page: u64, found: u64) -> u64
    ensures { result ≡ word_after (evict page) view.now found }
{
    if view.would_evict(page, found) {
        0
    } else {
        found
    }
}
