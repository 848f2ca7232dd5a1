//! Which bundles a call on the medium reproduces together.

ghost use Rattle.dude_base.specs.declared.limits.TheConstants.{PAGE as PAGE_WORDS};
ghost use Rattle.dude_core.specs.CallFits.{IsFront, IsApart};
ghost use Rattle.dude_core.specs.Chains.{writes_in};
ghost use Rattle.dude_core.specs.NextCalls.{AreApartOver, Replays, ReplaysNoneTo};
ghost use Rattle.dude_core.specs.StoreData.{tells};
ghost use Rattle.redo_record.specs.BackCalls.{reproduce_calls};
ghost use Rattle.std.specs.Prelude.{◌≡◌, ◌*◌, ◌<◌, ◌≤◌, ◌∷◌, ℕ, All, IfSome, IfNone};

use crate::fit::ends_by;
use crate::replay_room::ReplayRoom;
use crate::store::Store;
use pmem_trait::Call;
use redo_record::ReproduceCalls;

/// The number up to which the call goes on with a reproduction of bundles, whose writes are put into
/// the room, and whether it is the last call of it.
pub(crate) fn next_replay(
    store: &Store,
    room: &mut ReplayRoom,
    first: u64,
    call: Call,
) -> Option<(u64, bool)>
    requires apart { AreApartOver store.now.reproduced store.now.waiting }
    requires room { writes_in store.now.waiting ≤ room.old.room }
    ensures room { room.new.room ≡ room.old.room }
    ensures some { IfSome result (λ r. Replays (first ∷ tells store.now.ended) store.now call
        room.new.writes r.0 r.1) }
    ensures none { IfNone result ((n : ℕ)
        → ReplaysNoneTo (first ∷ tells store.now.ended) store.now call n) }
{
    for bundle in store.waiting() {
        let number = bundle.redo().last();
        if let Some(is_last) = replays_to(store, room, first, number, call) {
            return Some((number, is_last));
        }
    }
    None
}

// Whether the call is the last one of a reproduction up to this number, where it goes on with it.
fn replays_to(
    store: &Store,
    room: &mut ReplayRoom,
    first: u64,
    number: u64,
    call: Call,
) -> Option<bool>
    requires apart { AreApartOver store.now.reproduced store.now.waiting }
    requires over { store.now.reproduced < number }
    requires room { writes_in store.now.waiting ≤ room.old.room }
    ensures room { room.new.room ≡ room.old.room }
    ensures some { IfSome result (Replays (first ∷ tells store.now.ended) store.now call
        room.new.writes number) }
    ensures none { IfNone result (ReplaysNoneTo (first ∷ tells store.now.ended) store.now call
        number) }
{
    if !store.was_told_from(first, number) {
        return None;
    }
    if !room.fill(store.waiting(), store.reproduced(), number) {
        return None;
    }
    replay_ends(store, room, number, call)
}

// Whether the call, behind those made, ends what puts the writes home and settles the mark at the
// number.
fn replay_ends(store: &Store, room: &ReplayRoom, number: u64, call: Call) -> Option<bool>
    requires { All (λ w. w.at < store.now.sizes.pages * PAGE_WORDS) room.now.writes }
    ensures some { IfSome result (IsFront (reproduce_calls store.now.sizes room.now.writes number)
        store.now.calls call) }
    ensures none { IfNone result (IsApart (reproduce_calls store.now.sizes room.now.writes number)
        store.now.calls call) }
{
    let calls = ReproduceCalls::of(&store.place(), room.writes(), number);
    ends_by(&calls, store.calls(), call)
}
