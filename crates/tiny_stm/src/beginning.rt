//! A transaction begins.

use crate::stm::{Pass, Stm, Tx};
use pmem_trait::Medium;
use stm_transactions::begin::begin_in;
use stm_transactions::box_full::BoxFull;

impl<M: Medium> Stm<M> {
    ghost use Rattle.std.specs.Borrow.{sem, RestsIfErr};
    ghost use Rattle.std.specs.Prelude.{◌≡◌, IfErr, IfOk};
    ghost use Rattle.stm_slots.specs.contracts.beside.Beside.{the_row as beside_row};
    ghost use Rattle.stm_transactions.specs.Passes.{IsRefused, IsResting};
    ghost use Rattle.stm_transactions.specs.Transactions.{HasBegun};
    ghost use Rattle.stm_transactions.specs.contracts.pass.Pass.{the_row as pass_row};
    ghost use Rattle.tiny_stm.specs.Tables.{table_of};

    /// Begins a transaction of the pass, where its next box is empty. A clause says what a pass ends as that a result may hold
    /// only where it comes first, so the pass comes before the transactions' `Stm`.
    pub fn begin<'a>(p: &'a mut Pass, stm: &'a Stm<M>) -> Result<Tx<'a, M>, BoxFull>
        requires { IsResting (table_of stm.now) p.old }
        ensures* refused { sem 𝓛 (RestsIfErr (pass_row beside_row) p.entry (λ t. t.pass.ghost_name)
            result (λ n. IfErr result (λ e. IsRefused (table_of stm.now) e.seen p.old n))) }
        ensures same { IfOk result (λ t. t.pass.ghost_name ≡ p.entry.ghost_name) }
        ensures begun { IfOk result (HasBegun (table_of stm.now) p.old) }
    {
        begin_in(p, &stm.steps)
    }
}
