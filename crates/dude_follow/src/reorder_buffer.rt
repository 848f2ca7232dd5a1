//! The packets that a follower keeps until those before them come.

ghost use Rattle.dude_base.specs.Records.{RedoBundle, first_of};
ghost use Rattle.dude_follow.specs.Packets.{Share};
ghost use Rattle.dude_follow.specs.declared.reorder_buffer.TheConstants.{MAX_KEPT};
ghost use Rattle.std.specs.List.{Contains};
ghost use Rattle.std.specs.Prelude.{◌≡◌, ◌≢◌, ◌<◌, ◌≤◌, ◌+◌, ◌↔◌, [], ◌∷◌, ◌++◌, length, All, IsTrue, IfOk, IfSome, IfNone, filter, nat_lt, slice_index_or, vec_len, vec_capacity};

use crate::verdict::Verdict;
use dude_base::bundle::Bundle;
use std::alloc::{AllocError, Global};

/// The most packets that a follower may keep.
pub const MAX_KEPT: u64 = 4096;

/// The packets that are kept until those before them come, in the order in which they came, and how many may be.
#[derive(Drop)]
pub struct ReorderBuffer {
    pub kept: Vec<Bundle>,
    pub room: u64,
    ghost reserved: { room ≤ vec_capacity kept },
    ghost few: { vec_len kept ≤ room },
}

impl ReorderBuffer {
    ghost use Rattle.dude_follow.specs.ReorderBuffer.{IsEmptyBuffer, state_at};
    ghost use Rattle.dude_follow.specs.Taking.{SharesWith};
    ghost use Rattle.dude_follow.specs.Verdict.{Judges};

    /// Nothing is kept; memory is taken for as many packets as there is room for.
    pub fn new(alloc: Global, room: u64) -> Result<ReorderBuffer, AllocError>
        requires { room ≤ MAX_KEPT }
        ensures { IfOk result (IsEmptyBuffer room) }
    {
        let kept = Vec::with_capacity(alloc, room as usize)?;
        Ok(ReorderBuffer { kept, room })
    }

    // Whether the packet is one of those that are kept.
    fn holds(&self, b: &Bundle) -> bool
        ensures { IsTrue result ↔ Contains self.now.kept.items b.now }
    {
        self.kept.iter().any(|c| c.is_same(b))
    }

    // Whether it shares a number with one that is kept.
    fn shares(&self, b: &Bundle) -> bool
        ensures { IsTrue result ↔ SharesWith self.now.kept.items b.now }
    {
        for c in &self.kept {
            if overlap(b, c) {
                return true;
            }
        }
        false
    }

    /// Where the kept packet stands that begins behind this number.
    pub fn find_next(&self, number: u64) -> Option<usize>
        ensures some { IfSome result (λ k. (k < length self.now.kept.items)
            × ((d : RedoBundle) → first_of (slice_index_or self.now.kept.items k d) ≡ number + 1)) }
        ensures none { IfNone result (All (λ c. first_of c ≢ number + 1) self.now.kept.items) }
    {
        for (k, c) in self.kept.iter().enumerate() {
            if follows(c, number) {
                return Some(k);
            }
        }
        None
    }

    /// What is to be done with a packet where this number is reached: the first case that fits.
    pub fn judge(&self, number: u64, b: &Bundle) -> Verdict
        ensures { Judges self.now.room (state_at number self.now) b.now result }
    {
        if b.last() <= number {
            return Verdict::Old;
        }
        if b.first() <= number {
            return Verdict::Strange;
        }
        if self.holds(b) {
            return if follows(b, number) {
                Verdict::Next
            } else {
                Verdict::Known
            };
        }
        if self.shares(b) {
            return Verdict::Strange;
        }
        if follows(b, number) {
            return Verdict::Next;
        }
        if (self.kept.len() as u64) < self.room {
            Verdict::Fresh
        } else {
            Verdict::Full
        }
    }

    /// Keeps a packet. It takes no memory.
    pub fn keep(&mut self, b: &Bundle)
        requires { length self.old.kept.items < self.old.room }
        ensures kept { self.new.kept.items ≡ self.old.kept.items ++ b.now ∷ [] }
        ensures room { self.new.room ≡ self.old.room }
    {
        self.kept.push_reserved(b.copy());
    }

    /// Keeps only the packets that end over this number.
    pub fn release(&mut self, number: u64)
        ensures kept { self.new.kept.items ≡ filter (λ c. nat_lt number c.last)
            self.old.kept.items }
        ensures room { self.new.room ≡ self.old.room }
    {
        self.kept.retain(|c| c.last() > number);
    }
}

// Whether the two share a number.
#[tactic(auto, using(crate::proofs::Sharing::shared, crate::proofs::Sharing::apart_up, crate::proofs::Sharing::apart_down))]
fn overlap(b: &Bundle, c: &Bundle) -> bool
    ensures { IsTrue result ↔ Share b.now c.now }
{
    if b.last() < c.first() {
        return false;
    }
    if c.last() < b.first() {
        return false;
    }
    true
}

// Whether the packet begins behind the number.
fn follows(b: &Bundle, number: u64) -> bool
    ensures { IsTrue result ↔ (first_of b.now ≡ number + 1) }
{
    b.first() > number && b.first() - 1 == number
}
