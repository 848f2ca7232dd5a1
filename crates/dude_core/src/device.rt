//! One call on the medium.

ghost use Rattle.dude_base.specs.Records.{HasNumbers};
ghost use Rattle.dude_base.specs.declared.limits.TheConstants.{PAGE as PAGE_WORDS};
ghost use Rattle.dude_core.specs.Chains.{writes_in};
ghost use Rattle.dude_core.specs.Effects.{reads_page, replays, appends, called, rested};
ghost use Rattle.dude_core.specs.MadeCalls.{made_by, HasMade, MakesNone, refused_as};
ghost use Rattle.dude_core.specs.StateSteps.{IsKeptOver};
ghost use Rattle.std.specs.Prelude.{◌≡◌, ◌↔◌, ◌+◌, ◌*◌, ◌^◌, ◌<◌, ◌≤◌, All, AllPairs, OnOk, OnErr, IsErrOf, length};

use crate::core_refusal::CoreRefusal;
use crate::gathered::Gathered;
use crate::replay_room::ReplayRoom;
use crate::replaying::next_replay;
use crate::setup::Setup;
use crate::state::State;
use crate::store::Store;
use crate::waiting_bundle::WaitingBundle;
use dude_base::write::Write;
use pmem_trait::Call;
use std::alloc::{AllocError, Global};

/// Makes a call on the medium, the next one of a call of the back. It is `Off` exactly where it is
/// the next call of none that is allowed; after an `Err` the store is as it was.
pub(crate) fn make_call(
    state: &State,
    store: &mut Store,
    room: &mut ReplayRoom,
    alloc: Global,
    z: &Setup,
    call: Call,
) -> Result<(), CoreRefusal>
    requires kept { IsKeptOver z.now state.now store.old }
    requires room { writes_in store.old.waiting ≤ room.old.room }
    ensures room { writes_in store.new.waiting ≤ room.new.room }
    ensures ok { OnOk result (HasMade z.now state.now store.old call store.new) }
    ensures err { OnErr result (store.new ≡ store.old) }
    ensures off { IsErrOf result CoreRefusal.Off ↔ MakesNone z.now state.now store.old call }
{
    if let Some((page, is_last)) = store.next_page(call) {
        return or_refused(read_page(store, page, is_last, call));
    }
    if let Some(_) = store.next_told(call) {
        return or_refused(announce(store, call));
    }
    if let Some((number, is_last)) = next_replay(store, room, z.first(), call) {
        return or_refused(reproduce(store, room.writes(), number, is_last, call));
    }
    match state.next_persist(store, z, call) {
        Some(gathered) => or_refused(persist(store, room, alloc, gathered, call)),
        None => Err(CoreRefusal::Off),
    }
}

// Want of memory, as a refusal.
fn or_refused(made: Result<(), AllocError>) -> Result<(), CoreRefusal>
    ensures { result ≡ refused_as made }
{
    match made {
        Ok(()) => Ok(()),
        Err(AllocError) => Err(CoreRefusal::NoMemory),
    }
}

// Makes a call that reads a word of the page.
fn read_page(store: &mut Store, page: u64, is_last: bool, call: Call) -> Result<(), AllocError>
    requires { page * PAGE_WORDS + length store.old.calls < store.old.sizes.pages * PAGE_WORDS }
    ensures waiting { store.new.waiting ≡ store.old.waiting }
    ensures ok { OnOk result (store.new ≡ made_by (reads_page page) call is_last store.old) }
    ensures err { OnErr result (store.new ≡ store.old) }
{
    store.read_next(page, call)?;
    if is_last {
        store.rest();
    }
    Ok(())
}

// Makes the call that announces a number.
fn announce(store: &mut Store, call: Call) -> Result<(), AllocError>
    ensures waiting { store.new.waiting ≡ store.old.waiting }
    ensures ok { OnOk result (store.new ≡ rested (called call store.old)) }
    ensures err { OnErr result (store.new ≡ store.old) }
{
    store.call(call)?;
    store.rest();
    Ok(())
}

// Makes a call of those that put the writes home and settle the mark at the number.
fn reproduce(
    store: &mut Store,
    writes: &[Write],
    number: u64,
    is_last: bool,
    call: Call,
) -> Result<(), AllocError>
    requires rising { AllPairs (λ v w. v.at < w.at) writes.now }
    requires inside { All (λ w. w.at < store.old.sizes.pages * PAGE_WORDS) writes.now }
    ensures fewer { writes_in store.new.waiting ≤ writes_in store.old.waiting }
    ensures ok { OnOk result (store.new
        ≡ made_by (replays writes.now number) call is_last store.old) }
    ensures err { OnErr result (store.new ≡ store.old) }
{
    if is_last {
        store.end_reproduce(writes, number, call)
    } else {
        store.call(call)
    }
}

// Makes a call of those that persist the bundle, and takes room for its reproduction.
fn persist(
    store: &mut Store,
    room: &mut ReplayRoom,
    alloc: Global,
    gathered: Gathered,
    call: Call,
) -> Result<(), AllocError>
    requires ring { gathered.ring < store.old.sizes.rings }
    requires numbers { HasNumbers gathered.bundle }
    requires inside { All (λ w. w.at < store.old.sizes.pages * PAGE_WORDS) gathered.bundle.writes }
    requires room { writes_in store.old.waiting ≤ room.old.room }
    ensures room { writes_in store.new.waiting ≤ room.new.room }
    ensures ok { OnOk result (store.new
        ≡ made_by (appends gathered.ring gathered.bundle) call gathered.is_last store.old) }
    ensures err { OnErr result (store.new ≡ store.old) }
{
    if gathered.is_last {
        let _room = room.room();
        let needed = count_writes(store.waiting()) + gathered.bundle.len();
        enlarge(room, alloc, needed)?;
        store.end_persist(gathered.ring, gathered.bundle, call)
    } else {
        store.call(call)
    }
}

fn enlarge(room: &mut ReplayRoom, alloc: Global, needed: u64) -> Result<(), AllocError>
    ensures ok { OnOk result (needed ≤ room.new.room) }
    ensures more { room.old.room ≤ room.new.room }
{
    if room.room() < needed {
        *room = ReplayRoom::new(alloc, needed)?;
    }
    Ok(())
}

// How many writes the waiting bundles have together.
fn count_writes(waiting: &[WaitingBundle]) -> u64
    requires { writes_in waiting.now < 2 ^ 62 }
    ensures { result ≡ writes_in waiting.now }
{
    let mut count = 0;
    for bundle in waiting {
        count += bundle.redo().len();
    }
    count
}
