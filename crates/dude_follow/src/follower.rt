//! A follower of a shipped log, over any medium.

ghost use Rattle.dude_base.specs.Records.{first_of};
ghost use Rattle.dude_follow.specs.Applying.{GoesOn, HoldsArray, IsAtRest};
ghost use Rattle.dude_follow.specs.Packets.{IsPacket};
ghost use Rattle.dude_follow.specs.Replica.{replica_back};
ghost use Rattle.dude_follow.specs.declared.follow_fault.FollowFault.TheVariants.{Device, Dead};
ghost use Rattle.dude_follow.specs.declared.reorder_buffer.TheConstants.{MAX_KEPT};
ghost use Rattle.dude_follow.specs.declared.taken.Taken.TheVariants.{Applied};
ghost use Rattle.pmem_trait.specs.Sights.{Extends, Risen};
ghost use Rattle.std.specs.Prelude.{◌≡◌, ◌+◌, ◌≤◌, ◌↔◌, ℕ, List, All, IfErr, IfOk, IsErrOf, OnOk, false, is_ok, length, true};

use crate::chain::apply_chain;
use crate::follow_fault::FollowFault;
use crate::reorder_buffer::ReorderBuffer;
use crate::replica::Replica;
use crate::taken::Taken;
use crate::verdict::Verdict;
use dude_base::bundle::Bundle;
use dude_recover::Opened;
use pmem_trait::{Failed, Medium};
use std::alloc::{AllocError, Global};

/// A follower: it applies a leader's packets in the order of their numbers, and keeps those that come before their turn. Its
/// memory is taken when it is made.
#[derive(Drop)]
pub struct Follower<M: Medium> {
    replica: Replica<M>,
    buffer: ReorderBuffer,
    ghost packets: { All (IsPacket (replica_back replica).log.sizes) buffer.kept.items },
}

impl<M: Medium> Follower<M> {
    ghost use Rattle.back_store.specs.BackView.{sight_of};
    ghost use Rattle.dude_follow.specs.Follower.{AdvancesBy, KeepsParts, StartsOn, StaysSame, TakesPacket, follower_back, follower_medium, follower_room, follower_sight, follower_sizes, follower_state};
    ghost use Rattle.dude_recover.specs.Opened.{HoldsOpened, IsOpened};

    /// A follower over an opened image, with room to keep so many packets. On want of memory the image is given back.
    pub fn new(
        alloc: Global,
        opened: Opened<M>,
        room: u64,
    ) -> Result<Follower<M>, (AllocError, Opened<M>)>
        requires opened { IsOpened opened }
        requires some { 1 ≤ room }
        requires few { room ≤ MAX_KEPT }
        ensures starts { IfOk result (StartsOn opened room) }
        // Where the medium is as the opening left it.
        ensures holds { IfOk result (λ f. (before : ℕ) (words : List ℕ)
            → HoldsOpened before opened.sizes opened.number words (sight_of opened.back)
            → HoldsArray before (follower_back f) words (follower_sight f)) }
        ensures refused { IfErr result (λ refused. refused.1 ≡ opened) }
    {
        match ReorderBuffer::new(alloc, room) {
            Ok(buffer) => Ok(Follower {
                replica: Replica::new(opened.back),
                buffer,
            }),
            Err(refused) => Err((refused, opened)),
        }
    }

    /// Takes a packet: applies it, and the kept ones that follow it, where it is the next one; keeps it where it comes before
    /// its turn. It takes no memory.
    pub fn take(&mut self, b: &Bundle) -> Result<Taken, FollowFault>
        requires packet { IsPacket (follower_sizes self.old) b.now }
        ensures extends { Extends (follower_sight self.old) (follower_sight self.new) }
        ensures parts { KeepsParts self.old self.new }
        ensures dead { IsErrOf result Dead ↔ ((follower_back self.old).dead ≡ true) }
        ensures untouched { IsErrOf result Dead → StaysSame self.old self.new }
        ensures device { IsErrOf result Device
            ↔ ((follower_back self.old).dead ≡ false) × ((follower_back self.new).dead ≡ true) }
        ensures cause { IsErrOf result Device
            → Risen (follower_sight self.old).faults (follower_sight self.new).faults }
        ensures takes { (follower_back self.old).dead ≡ false
            → TakesPacket b.now result self.old self.new }
    {
        if self.replica.is_dead() {
            return Err(FollowFault::Dead);
        }
        match self.buffer.judge(self.replica.number(), b) {
            Verdict::Old => Ok(Taken::Old),
            Verdict::Strange => Ok(Taken::Strange),
            Verdict::Next => self.advance(b),
            Verdict::Known => Ok(Taken::Kept),
            Verdict::Fresh => {
                self.buffer.keep(b);
                Ok(Taken::Kept)
            }
            Verdict::Full => Ok(Taken::Dropped {
                kept: self.buffer.room,
            }),
        }
    }

    // Applies the packet, and the kept ones that follow it. What was applied is no longer kept, also where a call failed.
    fn advance(&mut self, b: &Bundle) -> Result<Taken, FollowFault>
        requires alive { (follower_back self.old).dead ≡ false }
        requires packet { IsPacket (follower_sizes self.old) b.now }
        requires next { first_of b.now ≡ (follower_state self.old).number + 1 }
        ensures goes_on { GoesOn (is_ok result) (follower_back self.old) (follower_sight self.old)
            (follower_back self.new) (follower_sight self.new) }
        ensures advances { AdvancesBy b.now (is_ok result) self.old self.new }
        ensures rests { OnOk result (IsAtRest (follower_back self.new)) }
        ensures room { follower_room self.new ≡ follower_room self.old }
        ensures answer { IfOk result (λ taken. taken ≡ Applied (follower_state self.new).number) }
        ensures fault { IfErr result (λ fault. fault ≡ Device) }
    {
        let applied = apply_chain(&mut self.replica, &self.buffer, b);
        self.buffer.release(self.replica.number());
        match applied {
            Ok(()) => Ok(Taken::Applied {
                number: self.replica.number(),
            }),
            Err(Failed) => Err(FollowFault::Device),
        }
    }

    /// The number that is reached.
    pub fn number(&self) -> u64
        ensures { result ≡ (follower_state self.now).number }
    {
        self.replica.number()
    }

    /// How many packets are kept.
    pub fn waiting(&self) -> u64
        ensures kept { result ≡ length (follower_state self.now).kept }
        ensures few { result ≤ follower_room self.now }
    {
        self.buffer.kept.len() as u64
    }

    /// The medium.
    pub fn into_medium(self) -> M
        ensures { result ≡ follower_medium self }
    {
        self.replica.into_medium()
    }
}
