//! Room for the writes of bundles that are reproduced together.

ghost use Rattle.dude_core.specs.Chains.{CanChain};
ghost use Rattle.dude_core.specs.ReplayRooms.{BringsOn};
ghost use Rattle.redo_record.specs.Waiting.{IsEnd};
ghost use Rattle.std.specs.Prelude.{◌≡◌, ◌^◌, ◌<◌, ◌≤◌, [], IfOk, MatchBool, length};
ghost use Rattle.std.specs.Vec.{vec_capacity};

use crate::chain_writes::take_chain;
use crate::waiting_bundle::WaitingBundle;
use dude_base::write::Write;
use group_combine::Group;
use std::alloc::{AllocError, Global};
use std::marker::Model;

// More writes than these stand in no memory.
const MOST_WRITES: u64 = 1 << 61;

/// The last writes of bundles that are reproduced together, in memory that was taken before.
#[derive(Drop)]
pub(crate) struct ReplayRoom {
    group: Group,
    writes: Vec<Write>,
    room: u64,
}

impl Model for ReplayRoom {
    ghost use Rattle.dude_core.specs.ReplayRooms.{RoomData, IsKeptRoom};

    ghost Value = { RoomData };

    ghost view = { λ a. record { writes = a.writes.items; room = a.room } };

    ghost invariant = { IsKeptRoom };
}

impl ReplayRoom {
    /// Room for so many writes of bundles; none is there yet.
    pub(crate) fn new(alloc: Global, room: u64) -> Result<ReplayRoom, AllocError>
        ensures { IfOk result (λ r. r ≡ record { writes = []; room = room }) }
    {
        if room > MOST_WRITES {
            return Err(AllocError);
        }
        Ok(ReplayRoom {
            group: Group::new(alloc, room)?,
            writes: Vec::with_capacity(alloc, room as usize)?,
            room,
        })
    }

    /// For how many writes of bundles there is room.
    pub(crate) fn room(&self) -> u64
        ensures room { result ≡ self.now.room }
        ensures few { result < 2 ^ 62 }
    {
        self.room
    }

    /// The writes.
    pub(crate) fn writes(&self) -> &[Write]
        ensures writes { result.now ≡ self.now.writes }
        ensures few { length self.now.writes < 2 ^ 62 }
    {
        let _room = self.room;
        &self.writes
    }

    /// Makes the writes those of the waiting bundles that lead from one number to another; whether
    /// there are such bundles.
    pub(crate) fn fill(&mut self, waiting: &[WaitingBundle], from: u64, number: u64) -> bool
        requires { CanChain waiting.now self.old.room }
        ensures room { self.new.room ≡ self.old.room }
        ensures filled { MatchBool result (BringsOn waiting.now from number self.new.writes)
            (IsEnd waiting.now from number → ⊥) }
    {
        if !take_chain(&mut self.group, waiting, from, number) {
            return false;
        }
        self.group.finish();
        copy_writes(&self.group, &mut self.writes);
        true
    }
}

// Makes the list the writes of the group.
fn copy_writes(group: &Group, list: &mut Vec<Write>)
    requires { length group.now.writes ≤ vec_capacity list.old }
    ensures writes { list.new.items ≡ group.now.writes }
    ensures capacity { vec_capacity list.new ≡ vec_capacity list.old }
{
    list.clear();
    for k in 0..group.len() {
        list.push_reserved(group.get(k));
    }
}
