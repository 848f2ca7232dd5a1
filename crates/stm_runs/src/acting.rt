//! What one pass does.

ghost use Rattle.stm_runs.specs.Kept.{StaysWith};
ghost use Rattle.stm_transactions.specs.Passes.{IsResting};
ghost use Rattle.tiny_stm.specs.Tables.{table_of};

use crate::moves::Act;
use crate::outcome::Answer;
use crate::transacting::transact;
use pmem_fake::MemPmem;
use tiny_stm::stm::{Pass, Stm};

/// Has the pass do this, and keeps what it read.
pub fn act_by(stm: &Stm<MemPmem>, p: &mut Pass, act: &Act, seen: &mut Vec<(u64, u64)>) -> Answer
    requires { IsResting (table_of stm.now) p.old }
    ensures { StaysWith (table_of stm.now) p.old p.new }
{
    match act {
        Act::Transact(accesses) => Answer::Ended(transact(stm, p, accesses, seen)),
        Act::Pump => Answer::Pumped(stm.pump(p)),
        Act::Fetch(page) if *page < stm.steps().events.pages() => {
            Answer::Fetched(stm.fetch(p, *page))
        }
        Act::Fetch(_) => Answer::NoPage,
    }
}
