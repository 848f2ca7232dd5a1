//! What transactions ask of the slots of a table.

ghost use Rattle.stm_transactions.specs.Rule.{LetsTransact};

use core_table::slot_rule::{AnySlots, SlotRule};
use core_table::stm::Stm;
use core_table::terms::Terms;
use pmem_trait::Medium;
use stm_slots::beside::Beside;
use stm_slots::opening::Opening;
use stm_slots::slot::Slot;
use stm_slots::slots_rule::KeptSlots;

/// A rule of slots whose fact outlasts the steps of passes and transactions, but for the draw and the
/// post of a number.
pub trait TransactionRule<S, X, K>: SlotRule<S, X, K> {
    ghost use Rattle.core_table.specs.Layout.{TableSight};
    ghost use Rattle.std.specs.Prelude.{◌≡◌};
    ghost use Rattle.stm_transactions.specs.Rule.{LetsTransact};

    /// It is so on any table that is set up by its key.
    ghost lets: { (t : TableSight K) → t.setup ≡ Self.setup t.key
        → LetsTransact Self.fact Self.beside t };
}

/// What the rule says of this table.
pub fn let_transact<S, X, K, P: TransactionRule<S, X, K>>(stm: &Stm<S, X, K, P>)
    ensures { LetsTransact P.fact P.beside stm.now.events }
{
    let _boxes = stm.events.box_count();
}

impl<S> TransactionRule<S, (), Terms> for AnySlots {
    ghost use Rattle.stm_transactions.specs.Rule.{any_lets};

    ghost lets = { λ t same. any_lets t };
}

impl<M: Medium> TransactionRule<Slot<M>, Beside, Opening<M>> for KeptSlots<M> {
    ghost use Rattle.stm_slots.proofs.Parting.{quiet_steps};
    ghost use Rattle.stm_transactions.specs.Rule.{kept_lets};

    ghost lets = { λ t same. kept_lets M.sight t (quiet_steps M.sight t same) };
}
