//! What becomes of a view by the events of a transaction that reads.

ghost use Rattle.core_events.specs.Events.{begin, extend, load, check, finish, look, name, view_after};
ghost use Rattle.dude_core.specs.Moves.{Advances, confirmed, reached, extended, validated};
ghost use Rattle.dude_core.specs.Named.{word_of, of_read};
ghost use Rattle.std.specs.Prelude.{◌≡◌, OnOk, OnErr};

use crate::about::About;
use crate::deed::ReadDeed;
use crate::entry::Entry;
use crate::setup::Setup;
use crate::view::View;
use crate::word::Word;
use dude_base::write_list::WriteList;
use std::alloc::{AllocError, Global};

pub(crate) fn read(
    view: &mut View,
    alloc: Global,
    z: &Setup,
    deed: &ReadDeed,
    word: Word,
    found: u64,
) -> Result<(), AllocError>
    requires name { word_of word ≡ name z.now (of_read deed.now) view.old }
    ensures { Advances result z.now (of_read deed.now) view.old found view.new }
{
    match deed {
        ReadDeed::Number => view.part.thread = Some(found),
        ReadDeed::Begin => begin(view, z, found),
        ReadDeed::Extend => extend(view, z, found),
        ReadDeed::Look { lock } => look(view, z, *lock, found),
        ReadDeed::Load { at } => load(view, z, *at, word, found),
        ReadDeed::Check { lock } => check(view, z, *lock, found)?,
        ReadDeed::Finish { about } => finish(view, alloc, z, about, found)?,
    }
    Ok(())
}

fn begin(view: &mut View, z: &Setup, found: u64)
    ensures { view.new ≡ view_after z.now begin view.old found }
{
    view.tx.is_open = true;
    view.tx.snapshot = found;
    view.tx.extension = None;
    view.tx.reads.clear();
    view.tx.loaded = None;
    view.notice(Word::Clock, found);
}

// An extension without reads ends at once.
fn extend(view: &mut View, z: &Setup, found: u64)
    ensures { view.new ≡ view_after z.now extend view.old found }
{
    view.tx.checked.clear();
    view.tx.loaded = None;
    reach(view, z, found);
    view.notice(Word::Clock, found);
}

// An extension to `goal` ends where each lock of the reads was found good.
fn reach(view: &mut View, z: &Setup, goal: u64)
    ensures { view.new ≡ reached z.now goal view.old }
{
    if view.tx.reads.all_checked(z, &view.tx.checked) {
        view.tx.snapshot = goal;
        view.tx.extension = None;
        return;
    }
    view.tx.extension = Some(goal);
}

pub(crate) fn look(view: &mut View, z: &Setup, lock: u64, found: u64)
    ensures { view.new ≡ view_after z.now (look lock) view.old found }
{
    view.tx.look = Some((lock, found));
    view.tx.loaded = None;
    view.notice(Word::Lock(lock), found);
}

fn load(view: &mut View, z: &Setup, at: u64, word: Word, found: u64)
    requires name { word_of word ≡ name z.now (load at) view.old }
    ensures { view.new ≡ view_after z.now (load at) view.old found }
{
    view.tx.loaded = Some((at, found));
    view.notice(word, found);
}

fn check(view: &mut View, z: &Setup, lock: u64, found: u64) -> Result<(), AllocError>
    ensures { Advances result z.now (check lock) view.old found view.new }
{
    match view.tx.loaded {
        Some((at, value)) => confirm(view, at, value, found)?,
        None => match view.tx.extension {
            Some(goal) => extend_over(view, z, goal, lock, found)?,
            None => validate(view, lock, found)?,
        },
    }
    view.notice(Word::Lock(lock), found);
    Ok(())
}

// A value that waits joins the reads where the lock's word is still the looked-at one.
fn confirm(view: &mut View, at: u64, value: u64, found: u64) -> Result<(), AllocError>
    ensures ok { OnOk result (view.new ≡ confirmed at value found view.old) }
    ensures err { OnErr result (view.new ≡ view.old) }
{
    if found == view.looked_word() {
        view.tx.reads.put_last(at, value)?;
        view.tx.loaded = None;
        return Ok(());
    }
    view.tx.loaded = None;
    Ok(())
}

// In an extension to `goal` the lock's word was found so.
fn extend_over(
    view: &mut View,
    z: &Setup,
    goal: u64,
    lock: u64,
    found: u64,
) -> Result<(), AllocError>
    ensures ok { OnOk result (view.new ≡ extended z.now goal lock found view.old) }
    ensures err { OnErr result (view.new ≡ view.old) }
{
    if !view.is_good(found) {
        view.tx.extension = None;
        return Ok(());
    }
    view.tx.checked.put_first(lock)?;
    reach(view, z, goal);
    Ok(())
}

// After the draw the lock's word was found so.
fn validate(view: &mut View, lock: u64, found: u64) -> Result<(), AllocError>
    ensures ok { OnOk result (view.new ≡ validated lock found view.old) }
    ensures err { OnErr result (view.new ≡ view.old) }
{
    if !view.is_good(found) {
        view.tx.hand.void = true;
        return Ok(());
    }
    view.tx.checked.put_first(lock)?;
    Ok(())
}

fn finish(
    view: &mut View,
    alloc: Global,
    z: &Setup,
    about: &About,
    found: u64,
) -> Result<(), AllocError>
    ensures { Advances result z.now (finish about.now) view.old found view.new }
{
    let entry = Entry {
        number: view.tx.snapshot,
        wrote: false,
        about: about.copy(),
        reads: view.tx.reads.copy(alloc)?,
        writes: WriteList::new(),
    };
    view.entries.push(entry)?;
    view.tx.is_open = false;
    view.tx.loaded = None;
    view.notice(Word::Threads, found);
    Ok(())
}
