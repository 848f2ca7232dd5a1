//! An event made on the state and its store.

ghost use Rattle.dude_core.specs.Chains.{writes_in};
ghost use Rattle.dude_core.specs.Memory.{TakesNoMemory};
ghost use Rattle.dude_core.specs.StateSteps.{IsKeptOver, IsOffOnlyOver, LeadsOver};
ghost use Rattle.dude_core.specs.Steps.{step_of};
ghost use Rattle.std.specs.Prelude.{◌≡◌, ◌≢◌, ◌≤◌, Err, OnOk, OnErr};

use crate::core_refusal::CoreRefusal;
use crate::deeds::deed_of;
use crate::device_event::make_device;
use crate::event::Event;
use crate::replay_room::ReplayRoom;
use crate::setup::Setup;
use crate::state::State;
use crate::store::Store;
use std::alloc::Global;

pub(crate) fn step(
    state: &mut State,
    store: &mut Store,
    room: &mut ReplayRoom,
    alloc: Global,
    z: &Setup,
    who: u64,
    event: &Event,
) -> Result<(), CoreRefusal>
    requires kept { IsKeptOver z.now state.old store.old }
    requires room { writes_in store.old.waiting ≤ room.old.room }
    ensures room { writes_in store.new.waiting ≤ room.new.room }
    ensures ok { OnOk result (LeadsOver z.now state.old store.old
        (step_of store.old.read who event.now) state.new store.new) }
    ensures err { OnErr result (state.new ≡ state.old) }
    ensures same { OnErr result (store.new ≡ store.old) }
    ensures off { IsOffOnlyOver result z.now state.old store.old
        (step_of store.old.read who event.now) }
    ensures no_memory { TakesNoMemory event.now → result ≢ Err CoreRefusal.NoMemory }
{
    match event {
        Event::Split { draws } => state.split(alloc, z, who, *draws),
        Event::Join { other } => state.join(alloc, z, who, *other),
        Event::Device { call } => make_device(state, store, room, alloc, z, who, *call),
        _ => {
            let deed = deed_of(event, store);
            state.make(store, alloc, z, who, &deed)
        }
    }
}
