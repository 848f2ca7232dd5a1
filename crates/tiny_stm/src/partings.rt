//! A pass is split off another, or joined into it.

use crate::stm::{Pass, Stm};
use pmem_trait::Medium;
use std::alloc::Global;
use stm_transactions::rule::let_transact;
use stm_transactions::split_fault::SplitFault;

impl<M: Medium> Stm<M> {
    ghost use Rattle.std.specs.Prelude.{◌≡◌, ◌≤◌, IfOk, OnErr};
    ghost use Rattle.stm_transactions.specs.Partings.{AnswersAll, IsJoined, IsSplitOff};
    ghost use Rattle.stm_transactions.specs.Passes.{IsResting};
    ghost use Rattle.tiny_stm.specs.Tables.{table_of};

    /// A new pass with so many of this pass's draws and with no splits; this pass has one split less.
    pub fn split(&self, p: &mut Pass, alloc: Global, draws: u64) -> Result<Pass, SplitFault>
        requires rests { IsResting (table_of self.now) p.old }
        requires draws { draws ≤ p.old.numbers.left }
        ensures ok { IfOk result (IsSplitOff (table_of self.now) draws p.old p.new) }
        ensures all { AnswersAll (table_of self.now) p.old result }
        ensures err { OnErr result (p.new ≡ p.old) }
    {
        let_transact(&self.steps);
        p.split(&self.steps, alloc, draws)
    }

    /// Takes another pass into this one, with its entries, its draws and splits, its threads, and
    /// what its turns met.
    pub fn join(&self, p: &mut Pass, other: Pass)
        requires rests { IsResting (table_of self.now) p.old }
        requires other { IsResting (table_of self.now) other }
        ensures { IsJoined (table_of self.now) p.old other p.new }
    {
        let_transact(&self.steps);
        p.join(&self.steps, other);
    }
}
