//! The turns that a worker takes.

ghost use Rattle.request_attempts.specs.Turns.{HasPumped, HasFetched, LeavesFault};
ghost use Rattle.std.specs.Prelude.{◌<◌, IfOk, IfErr, OnOk};
ghost use Rattle.stm_transactions.specs.Passes.{IsResting};

use crate::turn_fault::TurnFault;
use core_table::stm::Stm;
use stm_transactions::pass::Pass;
use stm_transactions::rule::TransactionRule;

/// What a worker calls where a transaction can't get on.
pub trait Turns<S, X, K, P: TransactionRule<S, X, K>> {
    /// Takes the turn, and makes durable what it finds. It answers the durable number.
    fn pump(&self, stm: &Stm<S, X, K, P>, p: &mut Pass<X>) -> Result<u64, TurnFault>
        requires rests { IsResting stm.now.events p.old }
        ensures ok { IfOk result (HasPumped stm.now.events p.old p.new) }
        ensures err { IfErr result (LeavesFault stm.now.events p.old p.new) };

    /// Takes the turn, and shows a page. Another turn may make it absent before a transaction reads it.
    fn fetch(&self, stm: &Stm<S, X, K, P>, p: &mut Pass<X>, page: u64) -> Result<(), TurnFault>
        requires rests { IsResting stm.now.events p.old }
        requires page { page < stm.now.events.setup.pages }
        ensures ok { OnOk result (HasFetched stm.now.events page p.old p.new) }
        ensures err { IfErr result (LeavesFault stm.now.events p.old p.new) };
}
