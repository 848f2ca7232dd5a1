//! A group: the last write of each word of some records, gathered in memory that was taken before.

ghost use Rattle.dude_base.specs.Writes.{HasDistinctPlaces, written};
ghost use Rattle.group_combine.specs.Group.{ActAs, IsWrittenBy, last_written};
ghost use Rattle.group_combine.specs.Numbered.{last_of};
ghost use Rattle.std.specs.Prelude.{◌≡◌, ℕ, ◌<◌, ◌≤◌, [], ◌∷◌, ◌++◌, ◌+◌, All, AllPairs, IfOk, length, slice_get, sum_by};

use crate::numbered::{Numbered, keep_last, sort_by_word};
use dude_base::bundle::Bundle;
use dude_base::write::Write;
use std::alloc::{AllocError, Global};
use std::marker::Model;

/// The last write of each word of some records. All its memory is taken when it is made.
#[derive(Drop)]
pub struct Group {
    writes: Vec<Write>,
    row: Vec<Numbered>,
}

impl Model for Group {
    ghost use Rattle.group_combine.specs.Group.{GroupState};
    ghost use Rattle.group_combine.specs.KeptGroup.{IsKeptGroup};
    ghost use Rattle.group_combine.specs.Numbered.{write_of};
    ghost use Rattle.std.specs.Prelude.{map};
    ghost use Rattle.std.specs.Vec.{vec_capacity};

    ghost Value = { GroupState };

    ghost view = { λ a. record { writes = a.writes.items; taken = map write_of a.row.items; room = vec_capacity a.writes } };

    ghost invariant = { IsKeptGroup };
}

impl Group {
    /// No writes yet, with room for this many.
    pub fn new(alloc: Global, room: u64) -> Result<Group, AllocError>
        ensures { IfOk result (λ group. group ≡ record { writes = []; taken = []; room = room }) }
    {
        Ok(Group {
            writes: Vec::with_capacity(alloc, room as usize)?,
            row: Vec::with_capacity(alloc, room as usize)?,
        })
    }

    /// How many writes there are.
    pub fn len(&self) -> u64
        ensures { result ≡ length self.now.writes }
    {
        self.writes.len() as u64
    }

    /// The write at index `k`, counted from 0.
    pub fn get(&self, k: u64) -> Write
        requires { k < length self.now.writes }
        ensures { slice_get self.now.writes k ≡ Some result }
    {
        let writes = &self.writes;
        writes[k as usize]
    }

    /// Forgets the writes, and those that were taken.
    pub fn clear(&mut self)
        ensures { self.new ≡ record { writes = []; taken = []; room = self.old.room } }
    {
        self.writes.clear();
        self.row.clear();
    }

    /// Takes one write more, behind the others.
    pub fn take(&mut self, w: Write)
        requires { length self.old.taken < self.old.room }
        ensures { self.new ≡ record self.old { taken = self.old.taken ++ w ∷ [] } }
    {
        let order = self.row.len() as u64;
        self.row.push_reserved(Numbered {
            at: w.at,
            order,
            value: w.value,
        });
    }

    /// Makes the group's writes the last one of each word among those that were taken, in rising order of word.
    pub fn finish(&mut self)
        ensures rising { AllPairs (λ v w. v.at < w.at) self.new.writes }
        ensures last { (i : ℕ) → written self.new.writes i ≡ last_of self.old.taken i }
        ensures few { length self.new.writes ≤ length self.old.taken }
        ensures taken { self.new.taken ≡ [] }
        ensures room { self.new.room ≡ self.old.room }
    {
        sort_by_word(&mut self.row);
        keep_last(&self.row, &mut self.writes);
        self.row.clear();
    }
}

/// Takes the writes of a record, behind the others.
pub fn take_bundle(bundle: &Bundle, out: &mut Group)
    requires { length out.old.taken + length bundle.now.writes ≤ out.old.room }
    ensures taken { out.new.taken ≡ out.old.taken ++ bundle.now.writes }
    ensures room { out.new.room ≡ out.old.room }
    ensures distinct { HasDistinctPlaces bundle.now.writes }
{
    for k in 0..bundle.len() {
        out.take(bundle.write_at(k));
    }
}

/// Makes `out` the last write of each word of the records, taken in order, in rising order of word. What it had before is
/// gone. It takes no memory.
pub fn combine(list: &[Bundle], out: &mut Group)
    requires { sum_by (λ r. length r.writes) list.now ≤ out.old.room }
    ensures rising { AllPairs (λ v w. v.at < w.at) out.new.writes }
    ensures last { (i : ℕ) → written out.new.writes i ≡ last_written list.now i }
    ensures each { All (IsWrittenBy list.now) out.new.writes }
    ensures effect { ActAs out.new.writes list.now }
    ensures few { length out.new.writes ≤ sum_by (λ r. length r.writes) list.now }
    ensures room { out.new.room ≡ out.old.room }
{
    out.clear();
    for r in list {
        take_bundle(r, out);
    }
    out.finish();
}
