//! A crit-bit tree over an array of words: a key is inserted, removed, replaced, and the next one found.

ghost use Rattle.record_heap.specs.Pool.{IsRecord};
ghost use Rattle.std.specs.Prelude.{◌+◌, ◌<◌, ◌^◌, ◌≡◌, IfOk, IfSome, MatchBool};
ghost use Rattle.tree_index.specs.Linking.{LinksSpare, PutsBesideAll, PutsFirstAll, Relinks, Unlinks, linked_beside};
ghost use Rattle.tree_index.specs.Tree.{FindsNext, FitsTree, InsertsAll, RemovesAll, ReplacesAll};
ghost use Rattle.tree_index.specs.Walk.{FindsLeast, FindsNearest, FitsPosition, FitsTrail, GoesToZeros, IsBelowFrom, IsFrom, IsStep, PlacesBeside, StaysAtRoot, WalksAlong, insert_reads, least_reads, next_reads, remove_reads, replace_reads, turn_by, walk_reads};
ghost use Rattle.word_space.specs.Steps.{AnswersSeen, ChangesSeen, Shows, UsesWords};

use crate::key_bits;
use crate::tree_put::TreePut;
use record_heap::pool::Pool;
use word_space::stop::Stop;
use word_space::words::Words;

/// A crit-bit tree: an ordered set of keys.
///
/// Word 0 of a record of `leaves` is its key. Word 0 of a record of `inner` is a bit, 0 to 63: the
/// highest one in which the keys below it differ. Its word 2 links what has 0 there, and word 3 what
/// has 1. The word `root` links the whole, or is 0 where there is no key. Bits fall from the root on,
/// so there are at most 64 inner records on the way to a leaf.
///
/// In an array that is no lawful tree a walk ends after 64 inner records, or where a link is none.
#[derive(Clone, Copy)]
pub struct Tree {
    pub leaves: Pool,
    pub inner: Pool,
    pub root: u64,
}

/// An inner record that a walk passed: the word that links it, its bit, and the side that the walk took.
#[derive(Clone, Copy)]
struct PassedRecord {
    at: u64,
    slot: u64,
    bit: u64,
    side: u64,
}

/// Where a walk stands: at the word `slot`, which holds `link`. `over` is the last inner record
/// passed, and `turn` the word that links the ones of the last one where the walk took the zeros.
#[derive(Clone, Copy)]
struct TreePosition {
    slot: u64,
    link: u64,
    over: Option<PassedRecord>,
    turn: Option<u64>,
}

/// The position where a walk ended, and the two over it, as far as there are such: those at the links of the last two inner
/// records passed. A walk that doesn't go as far down mostly ends at one of them.
#[derive(Clone, Copy)]
struct Trail {
    last: TreePosition,
    second: TreePosition,
    third: TreePosition,
}

/// The leaf to which the bits of a key lead, and the key in it.
#[derive(Clone, Copy)]
struct NearestLeaf {
    trail: Trail,
    key: u64,
}

impl TreePosition {
    // Whether the bit of the last inner record passed, where there is one, is at least `floor`.
    fn is_from(&self, floor: u64) -> bool
        ensures { MatchBool result (IsFrom floor self.now) (IsBelowFrom floor self.now) }
    {
        match self.over {
            Some(over) => over.bit >= floor,
            None => true,
        }
    }
}

impl Tree {
    /// Puts the key into the set, unless it is there.
    ///
    /// After a Stop the writes made before it are still pending, here as in `remove`: the caller drops
    /// them.
    pub fn insert<W: Words>(&self, w: &mut W, key: u64) -> Result<TreePut, Stop>
        requires fits { FitsTree self.now (W.sight w.old).count }
        ensures uses { UsesWords W.sight W.turns_into insert_reads 9 result w.old w.new }
        ensures inserts { ChangesSeen W.sight result w.old w.new (InsertsAll self.now key) }
    {
        let Some(near) = self.nearest(w, key)? else {
            return self.put_first(w, key);
        };
        if near.key == key {
            return Ok(TreePut::There);
        }
        let bit = key_bits::highest_difference(key, near.key);
        let position = self.place(w, key, bit + 1, near)?;
        self.put_beside(w, key, bit, position)
    }

    /// Takes the key out of the set. Answers whether it was there.
    pub fn remove<W: Words>(&self, w: &mut W, key: u64) -> Result<bool, Stop>
        requires fits { FitsTree self.now (W.sight w.old).count }
        ensures uses { UsesWords W.sight W.turns_into remove_reads 7 result w.old w.new }
        ensures removes { ChangesSeen W.sight result w.old w.new (RemovesAll self.now key) }
    {
        let Some(near) = self.nearest(w, key)? else {
            return Ok(false);
        };
        if near.key != key {
            return Ok(false);
        }
        self.unlink(w, near.trail.last)?;
        self.leaves.give(w, near.trail.last.link)?;
        Ok(true)
    }

    /// Puts the key `to` in the place of `from`: the records of `from` are linked anew, and none is taken or given back.
    ///
    /// What it does is said where `from` is there and `to` is not.
    pub fn replace<W: Words>(&self, w: &mut W, from: u64, to: u64) -> Result<(), Stop>
        requires fits { FitsTree self.now (W.sight w.old).count }
        ensures uses { UsesWords W.sight W.turns_into replace_reads 6 result w.old w.new }
        ensures replaces { ChangesSeen W.sight result w.old w.new (ReplacesAll self.now from to) }
    {
        let Some(near) = self.nearest(w, from)? else {
            return Ok(());
        };
        if near.key != from {
            return Ok(());
        }
        let leaf = near.trail.last.link;
        let Some(over) = near.trail.last.over else {
            return w.write(leaf, to);
        };
        self.cut(w, over)?;
        self.link_spare(w, to, leaf, over.at)
    }

    /// The least key that is at least `from`.
    pub fn next<W: Words>(&self, w: &mut W, from: u64) -> Result<Option<u64>, Stop>
        requires fits { FitsTree self.now (W.sight w.old).count }
        ensures uses { UsesWords W.sight W.turns_into next_reads 0 result w.old w.new }
        ensures next { AnswersSeen W.sight result w.old w.new (FindsNext self.now from) }
    {
        let Some(near) = self.nearest(w, from)? else {
            return Ok(None);
        };
        if near.key == from {
            return Ok(Some(near.key));
        }
        let bit = key_bits::highest_difference(from, near.key);
        let position = self.place(w, from, bit + 1, near)?;
        if from < near.key {
            return self.least_key(w, position.link);
        }
        let Some(word) = position.turn else {
            return Ok(None);
        };
        let link = w.read(word)?;
        self.least_key(w, link)
    }

    // Makes the key the only one of an empty tree.
    fn put_first<W: Words>(&self, w: &mut W, key: u64) -> Result<TreePut, Stop>
        requires fits { FitsTree self.now (W.sight w.old).count }
        ensures uses { UsesWords W.sight W.turns_into 3 4 result w.old w.new }
        ensures puts { ChangesSeen W.sight result w.old w.new (PutsFirstAll self.now key) }
    {
        let Some(leaf) = self.leaves.take(w)? else {
            return Ok(TreePut::Full);
        };
        w.write(leaf, key)?;
        w.write(self.root, leaf)?;
        Ok(TreePut::Stored)
    }

    // Puts the key, which isn't there, beside what stands at this position.
    fn put_beside<W: Words>(
        &self,
        w: &mut W,
        key: u64,
        bit: u64,
        position: TreePosition,
    ) -> Result<TreePut, Stop>
        requires fits { FitsTree self.now (W.sight w.old).count }
        requires position { FitsPosition self.now (W.sight w.old).count position }
        ensures uses { UsesWords W.sight W.turns_into 7 9 result w.old w.new }
        ensures puts { ChangesSeen W.sight result w.old w.new
            (PutsBesideAll self.now key bit position) }
    {
        let first = w.read(self.inner.base)?;
        if !self.inner.has(first) {
            return Ok(TreePut::Full);
        }
        let Some(leaf) = self.leaves.take(w)? else {
            return Ok(TreePut::Full);
        };
        let Some(fork) = self.inner.take(w)? else {
            return Ok(TreePut::Full);
        };
        self.link_beside(w, key, bit, leaf, fork, position)?;
        Ok(TreePut::Stored)
    }

    // Writes the new leaf and the new inner record, and links it at the position.
    fn link_beside<W: Words>(
        &self,
        w: &mut W,
        key: u64,
        bit: u64,
        leaf: u64,
        fork: u64,
        position: TreePosition,
    ) -> Result<(), Stop>
        requires fits { FitsTree self.now (W.sight w.old).count }
        requires leaf { IsRecord self.now.leaves leaf }
        requires fork { IsRecord self.now.inner fork }
        requires slot { position.slot < (W.sight w.old).count }
        ensures uses { UsesWords W.sight W.turns_into 0 5 result w.old w.new }
        ensures shown { Shows W.sight result w.old w.new
            (linked_beside key bit leaf fork position) }
    {
        let side = key_bits::side(key, bit);
        w.write(leaf, key)?;
        w.write(fork, bit)?;
        w.write(fork + 2 + side, leaf)?;
        w.write(fork + 3 - side, position.link)?;
        w.write(position.slot, fork)?;
        Ok(())
    }

    // Links the other side of the last inner record in its place, and gives it back; or empties the tree.
    fn unlink<W: Words>(&self, w: &mut W, position: TreePosition) -> Result<(), Stop>
        requires fits { FitsTree self.now (W.sight w.old).count }
        requires position { FitsPosition self.now (W.sight w.old).count position }
        ensures uses { UsesWords W.sight W.turns_into 3 4 result w.old w.new }
        ensures unlinks { ChangesSeen W.sight result w.old w.new (Unlinks self.now position.over) }
    {
        let Some(over) = position.over else {
            w.write(self.root, 0)?;
            return Ok(());
        };
        self.cut(w, over)?;
        self.inner.give(w, over.at)?;
        Ok(())
    }

    // Links the other side of an inner record in its place.
    fn cut<W: Words>(&self, w: &mut W, over: PassedRecord) -> Result<(), Stop>
        requires fits { FitsTree self.now (W.sight w.old).count }
        requires inner { IsRecord self.now.inner over.at }
        requires slot { over.slot < (W.sight w.old).count }
        requires side { over.side < 2 }
        ensures uses { UsesWords W.sight W.turns_into 1 1 result w.old w.new }
        ensures relinks { ChangesSeen W.sight result w.old w.new (Relinks over) }
    {
        let beside = w.read(over.at + 3 - over.side)?;
        w.write(over.slot, beside)
    }

    // Puts the key, which isn't there, into this leaf, and links it by this inner record. Neither is linked yet.
    fn link_spare<W: Words>(&self, w: &mut W, key: u64, leaf: u64, fork: u64) -> Result<(), Stop>
        requires fits { FitsTree self.now (W.sight w.old).count }
        requires leaf { IsRecord self.now.leaves leaf }
        requires fork { IsRecord self.now.inner fork }
        ensures uses { UsesWords W.sight W.turns_into 259 5 result w.old w.new }
        ensures links { ChangesSeen W.sight result w.old w.new (LinksSpare self.now key leaf fork) }
    {
        let Some(near) = self.nearest(w, key)? else {
            return Ok(());
        };
        if near.key == key {
            return Ok(());
        }
        let bit = key_bits::highest_difference(key, near.key);
        let position = self.place(w, key, bit + 1, near)?;
        self.link_beside(w, key, bit, leaf, fork, position)
    }

    // The leaf to which the bits of the key lead.
    fn nearest<W: Words>(&self, w: &mut W, key: u64) -> Result<Option<NearestLeaf>, Stop>
        requires fits { FitsTree self.now (W.sight w.old).count }
        ensures uses { UsesWords W.sight W.turns_into 130 0 result w.old w.new }
        ensures trail { IfOk result (λ r. IfSome r (λ near.
            FitsTrail self.now (W.sight w.old).count near.trail)) }
        ensures leaf { IfOk result (λ r. IfSome r
            (λ near. IsRecord self.now.leaves near.trail.last.link)) }
        ensures nearest { AnswersSeen W.sight result w.old w.new (FindsNearest self.now key) }
    {
        let trail = self.walk(w, key, 0)?;
        if !self.leaves.has(trail.last.link) {
            return Ok(None);
        }
        let other = w.read(trail.last.link)?;
        Ok(Some(NearestLeaf { trail, key: other }))
    }

    // Where the bits of the key lead as long as the bit is at least `floor`: to their leaf, or to one of the two positions over
    // it. Where the last inner records over these have lesser bits, a second walk is needed.
    fn place<W: Words>(
        &self,
        w: &mut W,
        key: u64,
        floor: u64,
        near: NearestLeaf,
    ) -> Result<TreePosition, Stop>
        requires trail { FitsTrail self.now (W.sight w.old).count near.trail }
        requires fits { FitsTree self.now (W.sight w.old).count }
        ensures uses { UsesWords W.sight W.turns_into walk_reads 0 result w.old w.new }
        ensures position { IfOk result (FitsPosition self.now (W.sight w.old).count) }
        ensures walks { AnswersSeen W.sight result w.old w.new
            (PlacesBeside self.now key floor near) }
    {
        let Trail {
            last,
            second,
            third,
        } = near.trail;
        if last.is_from(floor) {
            return Ok(last);
        }
        if second.is_from(floor) {
            return Ok(second);
        }
        if third.is_from(floor) {
            return Ok(third);
        }
        let again = self.walk(w, key, floor)?;
        Ok(again.last)
    }

    // Goes down from the root by the bits of the key, as long as the bit is at least `floor`.
    fn walk<W: Words>(&self, w: &mut W, key: u64, floor: u64) -> Result<Trail, Stop>
        requires fits { FitsTree self.now (W.sight w.old).count }
        ensures uses { UsesWords W.sight W.turns_into walk_reads 0 result w.old w.new }
        ensures trail { IfOk result (FitsTrail self.now (W.sight w.old).count) }
        ensures walks { AnswersSeen W.sight result w.old w.new (WalksAlong self.now key floor) }
        ensures empty { AnswersSeen W.sight result w.old w.new (StaysAtRoot self.now) }
    {
        let link = w.read(self.root)?;
        let start = TreePosition {
            slot: self.root,
            link,
            over: None,
            turn: None,
        };
        let mut trail = Trail {
            last: start,
            second: start,
            third: start,
        };
        for _ in 0..64u64 {
            let Some(next) = self.step(w, key, floor, trail.last)? else {
                return Ok(trail);
            };
            trail = Trail {
                last: next,
                second: trail.last,
                third: trail.second,
            };
        }
        Ok(trail)
    }

    // One step down, or None where the walk is at its end.
    fn step<W: Words>(
        &self,
        w: &mut W,
        key: u64,
        floor: u64,
        position: TreePosition,
    ) -> Result<Option<TreePosition>, Stop>
        requires fits { FitsTree self.now (W.sight w.old).count }
        requires position { FitsPosition self.now (W.sight w.old).count position }
        ensures uses { UsesWords W.sight W.turns_into 2 0 result w.old w.new }
        ensures position { IfOk result (λ r. IfSome r
            (FitsPosition self.now (W.sight w.old).count)) }
        ensures steps { AnswersSeen W.sight result w.old w.new
            (IsStep self.now key floor position) }
    {
        if !self.inner.has(position.link) {
            return Ok(None);
        }
        let bit = w.read(position.link)?;
        if bit < floor {
            return Ok(None);
        }
        let side = key_bits::side(key, bit);
        let slot = position.link + 2 + side;
        let link = w.read(slot)?;
        let over = PassedRecord {
            at: position.link,
            slot: position.slot,
            bit,
            side,
        };
        let turn = Tree::turn_after(position, side);
        Ok(Some(TreePosition {
            slot,
            link,
            over: Some(over),
            turn,
        }))
    }

    // The last turn to the zeros, after a step to this side.
    fn turn_after(position: TreePosition, side: u64) -> Option<u64>
        requires small { position.link + 3 < 2 ^ 64 }
        ensures { result ≡ turn_by side position.link position.turn }
    {
        if side == 0 {
            Some(position.link + 3)
        } else {
            position.turn
        }
    }

    // The least key behind this link.
    fn least_key<W: Words>(&self, w: &mut W, link: u64) -> Result<Option<u64>, Stop>
        requires fits { FitsTree self.now (W.sight w.old).count }
        ensures uses { UsesWords W.sight W.turns_into least_reads 0 result w.old w.new }
        ensures least { AnswersSeen W.sight result w.old w.new (FindsLeast self.now link) }
    {
        let mut at = link;
        for _ in 0..64u64 {
            at = self.zeros_link(w, at)?;
        }
        if !self.leaves.has(at) {
            return Ok(None);
        }
        let key = w.read(at)?;
        Ok(Some(key))
    }

    // The link for bit 0 of an inner record; a link that is none stays.
    fn zeros_link<W: Words>(&self, w: &mut W, link: u64) -> Result<u64, Stop>
        requires fits { FitsTree self.now (W.sight w.old).count }
        ensures uses { UsesWords W.sight W.turns_into 1 0 result w.old w.new }
        ensures zeros { AnswersSeen W.sight result w.old w.new (GoesToZeros self.now link) }
    {
        if !self.inner.has(link) {
            return Ok(link);
        }
        w.read(link + 2)
    }
}
