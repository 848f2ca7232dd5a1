//! The event that makes one call on the medium.

ghost use Rattle.core_events.specs.Views.{View as Seen};
ghost use Rattle.core_medium.specs.Machines.{device};
ghost use Rattle.dude_core.specs.Chains.{writes_in};
ghost use Rattle.dude_core.specs.MadeCalls.{HasTurnAt};
ghost use Rattle.dude_core.specs.Named.{Tells};
ghost use Rattle.dude_core.specs.StateSteps.{IsKeptOver, IsOffOnlyOver, LeadsOver};
ghost use Rattle.std.specs.Prelude.{◌≡◌, ◌≤◌, OnOk, OnErr};

use crate::core_refusal::CoreRefusal;
use crate::device::make_call;
use crate::replay_room::ReplayRoom;
use crate::setup::Setup;
use crate::state::State;
use crate::store::Store;
use pmem_trait::Call;
use std::alloc::Global;

/// Makes a call on the medium by the view `who`. It is `Off` exactly where the definitions don't
/// allow it; after an `Err` the store is as it was.
pub(crate) fn make_device(
    state: &State,
    store: &mut Store,
    room: &mut ReplayRoom,
    alloc: Global,
    z: &Setup,
    who: u64,
    call: Call,
) -> Result<(), CoreRefusal>
    requires kept { IsKeptOver z.now state.now store.old }
    requires room { writes_in store.old.waiting ≤ room.old.room }
    ensures room { writes_in store.new.waiting ≤ room.new.room }
    ensures ok { OnOk result (LeadsOver z.now state.now store.old (device who call) state.now
        store.new) }
    ensures err { OnErr result (store.new ≡ store.old) }
    ensures off { IsOffOnlyOver result z.now state.now store.old (device who call) }
{
    // Each ring of the image is there.
    let _place = store.place();
    if !state.has_turn(who) {
        return Err(CoreRefusal::Off);
    }
    make_call(state, store, room, alloc, z, call)
}

impl State {
    // The view `who` is there, isn't spent, and has a thread's number and the turn.
    fn has_turn(&self, who: u64) -> bool
        ensures { Tells result ((v : Seen) × HasTurnAt self.now who v) }
    {
        if who >= self.views.len() as u64 {
            return false;
        }
        self.views[who as usize].has_turn()
    }
}
