//! What becomes of a view by the events of a transaction that writes.

ghost use Rattle.core_events.specs.Conditions.{May};
ghost use Rattle.core_events.specs.Events.{take, draw, decide, name};
ghost use Rattle.core_events.specs.Telling.{WordTold};
ghost use Rattle.dude_core.specs.Moves.{Advances};
ghost use Rattle.dude_core.specs.Named.{word_of, of_write};
ghost use Rattle.std.specs.Prelude.{◌≡◌, ◌<◌, ◌-◌, ◌^◌};

use crate::about::About;
use crate::deed::WriteDeed;
use crate::entry::Entry;
use crate::reading::look;
use crate::setup::Setup;
use crate::view::View;
use crate::word::Word;
use dude_base::write_list::WriteList;
use std::alloc::{AllocError, Global};

pub(crate) fn write(
    view: &mut View,
    alloc: Global,
    z: &Setup,
    deed: &WriteDeed,
    word: Word,
    found: u64,
) -> Result<(), AllocError>
    requires may { May z.now (of_write deed.now) view.old }
    requires told { WordTold z.now (of_write deed.now) view.old found }
    requires name { word_of word ≡ name z.now (of_write deed.now) view.old }
    ensures { Advances result z.now (of_write deed.now) view.old found view.new }
{
    match deed {
        WriteDeed::Take { lock } => take(view, z, *lock, found),
        WriteDeed::Draw { about, writes } => draw(view, z, about, writes, found),
        WriteDeed::Decide => decide(view, alloc, z, word, found),
        WriteDeed::Store { at } => {
            view.tx.hand.stored.put_first(*at)?;
            Ok(())
        }
        WriteDeed::Release { lock } => {
            view.tx.owned.remove(*lock);
            Ok(())
        }
        WriteDeed::Restore { lock } => {
            view.tx.owned.remove(*lock);
            Ok(())
        }
    }
}

fn take(view: &mut View, z: &Setup, lock: u64, found: u64) -> Result<(), AllocError>
    ensures { Advances result z.now (take lock) view.old found view.new }
{
    if found == view.looked_word() {
        view.tx.owned.put_first(lock, found)?;
        view.tx.loaded = None;
        return Ok(());
    }
    look(view, z, lock, found);
    Ok(())
}

fn draw(
    view: &mut View,
    z: &Setup,
    about: &About,
    writes: &WriteList,
    found: u64,
) -> Result<(), AllocError>
    requires { found < 2 ^ 64 - 1 }
    ensures { Advances result z.now (draw about.now writes.now) view.old found view.new }
{
    let number = found + 1;
    view.drawn.put_last(number)?;
    view.draws = view.draws.saturating_sub(1);
    view.tx.loaded = None;
    view.tx.checked.clear();
    view.tx.hand.number = number;
    view.tx.hand.decided = false;
    view.tx.hand.void = false;
    view.tx.hand.about = about.copy();
    view.tx.hand.writes = writes.copy();
    view.tx.hand.stored.clear();
    Ok(())
}

fn decide(
    view: &mut View,
    alloc: Global,
    z: &Setup,
    word: Word,
    found: u64,
) -> Result<(), AllocError>
    requires name { word_of word ≡ name z.now decide view.old }
    ensures { Advances result z.now decide view.old found view.new }
{
    let reads = view.tx.reads.copy(alloc)?;
    let entry = Entry {
        number: view.tx.hand.number,
        wrote: true,
        about: view.tx.hand.about.copy(),
        reads,
        writes: view.tx.hand.writes.copy(),
    };
    view.entries.push(entry)?;
    view.tx.hand.decided = true;
    view.notice(word, found);
    Ok(())
}
