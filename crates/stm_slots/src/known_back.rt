//! The calls of a back, as changes of the lists by which it is known.

ghost use Rattle.back_store.specs.Answers.{after_announce, after_persist, after_read, after_reproduce};
ghost use Rattle.back_store.specs.Back.{IsEnd, MayPersist};
ghost use Rattle.back_store.specs.BackView.{HasCause, HasPersistCause, ReadsPage, TellsEnd, state_of};
ghost use Rattle.back_store.specs.Backlog.{IsLawful, StopsAfter};
ghost use Rattle.dude_base.specs.declared.limits.TheConstants.{PAGE};
ghost use Rattle.std.specs.Prelude.{◌≡◌, ◌<◌, IfOk};
ghost use Rattle.stm_slots.specs.Calls.{StartsKnown, StaysKnown, TakesRecords, TellsNone};
ghost use Rattle.stm_slots.specs.Records.{LawOfJoinedRecords};

use back_store::{Back, BackFault};
use dude_base::bundle::Bundle;
use dude_base::limits::PAGE;
use pmem_trait::Medium;

/// What is known of a back on which nothing waits. It does nothing.
pub fn start<M: Medium>(back: &Back<M>)
    ensures lawful { IsLawful (state_of back.now).log }
    ensures known { StartsKnown back.now }
{
    // The log is lawful, whatever the medium.
    let _durable = back.durable();
}

/// Persists a bundle in a ring. After `Device` its records count as handed over too, since they may be on the medium.
pub fn persist<M: Medium>(back: &mut Back<M>, ring: u64, bundle: &Bundle) -> Result<(), BackFault>
    requires may { MayPersist (state_of back.old) ring bundle.now }
    ensures state { state_of back.new ≡ after_persist result ring bundle.now (state_of back.old) }
    ensures cause { HasPersistCause ring bundle.now result back.old back.new }
    ensures known { TakesRecords bundle.now result back.old back.new }
{
    back.persist(ring, bundle)
}

/// Announces the number to which waiting bundles lead.
pub fn announce<M: Medium>(back: &mut Back<M>) -> Result<u64, BackFault>
    ensures answer { IfOk result (IsEnd (state_of back.old)) }
    ensures state { state_of back.new ≡ after_announce result (state_of back.old) }
    ensures told { TellsEnd result back.old back.new }
    ensures cause { HasCause result back.old back.new }
    ensures known { StaysKnown back.old back.new }
{
    let result = back.announce();
    // The log is lawful, whatever the medium.
    let _durable = back.durable();
    result
}

/// Reproduces the next durable records, of at most `most` numbers, but one bundle at least where there is one and `most`
/// isn't 0. It tells nothing.
pub fn reproduce<M: Medium>(back: &mut Back<M>, most: u64) -> Result<u64, BackFault>
    ensures answer { IfOk result (StopsAfter (state_of back.old).log most) }
    ensures state { state_of back.new ≡ after_reproduce result (state_of back.old) }
    ensures cause { HasCause result back.old back.new }
    ensures told { IfOk result (λ n. TellsNone back.old back.new) }
    ensures known { StaysKnown back.old back.new }
{
    let result = back.reproduce(most);
    // The log is lawful, whatever the medium.
    let _durable = back.durable();
    result
}

/// Gives a page of the home.
#[inline(never)]
pub fn read_page<M: Medium>(
    back: &mut Back<M>,
    page: u64,
    into: &mut [u64; PAGE as usize],
) -> Result<(), BackFault>
    requires { page < (state_of back.old).log.sizes.pages }
    ensures state { state_of back.new ≡ after_read result (state_of back.old) }
    ensures reads { ReadsPage page result back.old back.new into.new }
    ensures cause { HasCause result back.old back.new }
    ensures known { StaysKnown back.old back.new }
{
    back.read_page(page, into)
}

/// Which records a bundle joins.
pub fn law_of_joined_records()
    ensures { LawOfJoinedRecords }
{}
