//! The follower's copy of the leader's array: each packet is applied to it at once.

ghost use Rattle.back_store.specs.Back.{waiting_now};
ghost use Rattle.back_store.specs.BackView.{medium_of, sight_of, state_of};
ghost use Rattle.dude_base.specs.Records.{RedoBundle, first_of};
ghost use Rattle.dude_follow.specs.Applying.{AnnouncesAlone, Applies, GoesOn, IsAtRest, PersistsAlone, RecoversThrough, ReproducesAlone, WaitsAlone};
ghost use Rattle.dude_follow.specs.Packets.{IsPacket};
ghost use Rattle.redo_record.specs.Waiting.{Waiting};
ghost use Rattle.std.specs.List.{Contains};
ghost use Rattle.std.specs.Prelude.{◌≡◌, ◌+◌, OnErr, OnOk, [], ◌∷◌, false, is_ok};

use back_store::{Back, BackFault};
use dude_base::bundle::Bundle;
use pmem_trait::{Failed, Medium};

/// The back of a store in which nothing waits, and all is in the home. After a call that failed it is dead.
#[derive(Drop)]
pub struct Replica<M: Medium> {
    back: Back<M>,
    ghost announced: { (state_of back).dead ≡ false → (state_of back).log.durable ≡ (state_of back).log.reproduced },
    ghost none_waits: { (state_of back).dead ≡ false → (w : Waiting) → Contains (waiting_now (state_of back)) w → ⊥ },
}

impl<M: Medium> Replica<M> {
    ghost use Rattle.dude_follow.specs.Replica.{replica_back, replica_medium, replica_sight};

    /// Over a back in which nothing waits.
    pub fn new(back: Back<M>) -> Replica<M>
        requires { IsAtRest (state_of back) }
        ensures back { replica_back result ≡ state_of back }
        ensures medium { replica_medium result ≡ medium_of back }
    {
        Replica { back }
    }

    /// The number up to which the home has all.
    pub fn number(&self) -> u64
        ensures number { result ≡ (replica_back self.now).log.reproduced }
        ensures rests { (replica_back self.now).dead ≡ false → IsAtRest (replica_back self.now) }
    {
        self.back.reproduced()
    }

    /// Whether an earlier call failed.
    pub fn is_dead(&self) -> bool
        ensures { result ≡ (replica_back self.now).dead }
    {
        self.back.is_dead()
    }

    /// Applies the packet of the next numbers: it is made durable, announced and reproduced.
    pub fn apply(&mut self, b: &Bundle) -> Result<(), Failed>
        requires alive { (replica_back self.old).dead ≡ false }
        requires packet { IsPacket (replica_back self.old).log.sizes b.now }
        requires next { first_of b.now ≡ (replica_back self.old).log.reproduced + 1 }
        ensures goes_on { GoesOn (is_ok result) (replica_back self.old) (replica_sight self.old)
            (replica_back self.new) (replica_sight self.new) }
        ensures applies { OnOk result (Applies (b.now ∷ []) (replica_back self.old)
            (replica_sight self.old) (replica_back self.new) (replica_sight self.new)) }
        ensures number { OnErr result
            ((replica_back self.new).log.reproduced ≡ (replica_back self.old).log.reproduced) }
        ensures moments { RecoversThrough (b.now ∷ []) (replica_back self.old)
            (replica_sight self.old) (replica_sight self.new) }
    {
        // The log is lawful, whatever the medium.
        let _durable = self.back.durable();
        persist(&mut self.back, b)?;
        announce(&mut self.back)?;
        reproduce_all(&mut self.back)?;
        Ok(())
    }

    /// The medium.
    pub fn into_medium(self) -> M
        ensures { result ≡ replica_medium self }
    {
        self.back.into_medium()
    }
}

// Persists a packet in the first ring, where nothing waits.
fn persist<M: Medium>(back: &mut Back<M>, b: &Bundle) -> Result<(), Failed>
    requires rests { IsAtRest (state_of back.old) }
    requires packet { IsPacket (state_of back.old).log.sizes b.now }
    requires next { first_of b.now ≡ (state_of back.old).log.reproduced + 1 }
    ensures goes_on { GoesOn (is_ok result) (state_of back.old) (sight_of back.old)
        (state_of back.new) (sight_of back.new) }
    ensures persists { OnOk result (PersistsAlone b.now (state_of back.old) (sight_of back.old)
        (state_of back.new) (sight_of back.new)) }
    ensures number { OnErr result
        ((state_of back.new).log.reproduced ≡ (state_of back.old).log.reproduced) }
    ensures moments { RecoversThrough (b.now ∷ []) (state_of back.old) (sight_of back.old)
        (sight_of back.new) }
{
    match back.persist(0, b) {
        Ok(()) => Ok(()),
        Err(BackFault::RingFull { .. }) => unreachable!(),
        Err(_) => Err(Failed),
    }
}

// Announces all that waits.
fn announce<M: Medium>(back: &mut Back<M>) -> Result<(), Failed>
    requires alive { (state_of back.old).dead ≡ false }
    ensures number { OnErr result
        ((state_of back.new).log.reproduced ≡ (state_of back.old).log.reproduced) }
    ensures goes_on { GoesOn (is_ok result) (state_of back.old) (sight_of back.old)
        (state_of back.new) (sight_of back.new) }
    ensures announces { OnOk result ((b : RedoBundle) → WaitsAlone b (state_of back.old)
        → AnnouncesAlone b (state_of back.old) (sight_of back.old) (state_of back.new)
        (sight_of back.new)) }
    ensures moments { (b : RedoBundle) → WaitsAlone b (state_of back.old)
        → RecoversThrough (b ∷ []) (state_of back.old) (sight_of back.old) (sight_of back.new) }
{
    match back.announce() {
        Ok(_) => Ok(()),
        Err(_) => Err(Failed),
    }
}

// Reproduces all that was announced.
fn reproduce_all<M: Medium>(back: &mut Back<M>) -> Result<(), Failed>
    requires alive { (state_of back.old).dead ≡ false }
    ensures goes_on { GoesOn (is_ok result) (state_of back.old) (sight_of back.old)
        (state_of back.new) (sight_of back.new) }
    ensures reproduces { OnOk result ((b : RedoBundle) → WaitsAlone b (state_of back.old)
        → (state_of back.old).log.durable ≡ b.last
        → ReproducesAlone b (state_of back.old) (sight_of back.old) (state_of back.new)
        (sight_of back.new)) }
    ensures number { OnErr result
        ((state_of back.new).log.reproduced ≡ (state_of back.old).log.reproduced) }
    ensures moments { (b : RedoBundle) → WaitsAlone b (state_of back.old)
        → RecoversThrough (b ∷ []) (state_of back.old) (sight_of back.old) (sight_of back.new) }
{
    match back.reproduce(u64::MAX) {
        Ok(_) => Ok(()),
        Err(_) => Err(Failed),
    }
}
