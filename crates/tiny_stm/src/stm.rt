//! Running transactions, their passes and what steps are made on.

ghost use Rattle.dude_base.specs.declared.limits.TheConstants.{PAGE as PAGE_WORDS};
ghost use Rattle.std.specs.Prelude.{◌≡◌, ◌*◌, ◌≤◌, length};
ghost use Rattle.std.specs.Vec.{vec_capacity, vec_len};

use crate::posted::Posted;
use pmem_trait::Medium;
use stm_slots::beside::Beside;
use stm_slots::opening::Opening;
use stm_slots::slot::Slot;
use stm_slots::slots_rule::KeptSlots;

/// What transactions make their steps on.
pub type Steps<M> = core_table::stm::Stm<Slot<M>, Beside, Opening<M>, KeptSlots<M>>;

/// A seat with a thread's number. Each thread has one of its own.
pub type Pass = stm_transactions::pass::Pass<Beside>;

/// A transaction of a pass.
pub type Tx<'a, M> = stm_transactions::tx::Tx<'a, Slot<M>, Beside, Opening<M>, KeptSlots<M>>;

/// Running transactions over the back of a store. Threads share it, each with a pass of its own;
/// the last pass closes it.
pub struct Stm<M: Medium> {
    pub(crate) steps: Steps<M>,
    pub(crate) opening: Opening<M>,
    pub(crate) rest: Vec<Posted>,
    ghost terms: { opening.terms ≡ steps.events.key.terms },
    ghost size: { length opening.terms.opening ≡ opening.terms.pages * PAGE_WORDS },
    ghost none: { vec_len rest ≡ 0 },
    ghost room: { steps.events.setup.threads * steps.events.setup.boxes ≤ vec_capacity rest },
}

impl<M: Medium> Stm<M> {
    ghost use Rattle.tiny_stm.specs.Tables.{table_of};

    /// What transactions make their steps on.
    pub fn steps(&self) -> &Steps<M>
        ensures { result.now.events ≡ table_of self.now }
    {
        &self.steps
    }
}
