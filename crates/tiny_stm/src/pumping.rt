//! A pass takes the turn, and makes durable what boxes have.

ghost use Rattle.std.specs.Prelude.{◌≡◌};
ghost use Rattle.stm_transactions.specs.Passes.{IsResting};
ghost use Rattle.tiny_stm.specs.Turned.{PumpsPass, numbers_after};

use crate::stm::{Pass, Steps, Stm};
use pmem_trait::Medium;
use stm_transactions::pass_numbers::PassNumbers;
use stm_turns::{PumpFault, Pumped};

impl<M: Medium> Stm<M> {
    ghost use Rattle.tiny_stm.specs.Tables.{table_of};

    /// Takes the turn, persists the records of full boxes, those of the pass's own thread last,
    /// empties these boxes, announces, reproduces, and gives the turn back. After an `Err` other
    /// than `Held` the pass has met a fault.
    pub fn pump(&self, p: &mut Pass) -> Result<Pumped, PumpFault>
        requires { IsResting (table_of self.now) p.old }
        ensures { PumpsPass M.sight (table_of self.now) result p.old p.new }
    {
        pump_on(&self.steps, p)
    }
}

/// What `Stm::pump` does, over what transactions make their steps on.
pub fn pump_on<M: Medium>(steps: &Steps<M>, p: &mut Pass) -> Result<Pumped, PumpFault>
    requires { IsResting steps.now.events p.old }
    ensures { PumpsPass M.sight steps.now.events result p.old p.new }
{
    let numbers = p.numbers();
    let (mut seat, descriptor) = p.take_seat();
    let mut durable = numbers.durable;
    let result = stm_turns::pump(&steps.events, &mut seat, numbers.thread, &mut durable);
    p.put_seat(seat, descriptor, after_pump(numbers, &result, durable));
    result
}

fn after_pump(numbers: PassNumbers, answer: &Result<Pumped, PumpFault>, durable: u64) -> PassNumbers
    ensures { result ≡ numbers_after answer.now durable numbers }
{
    match answer {
        Ok(pumped) => numbers.take_turn(pumped.durable),
        Err(PumpFault::Held { seen: _ }) => numbers.refuse(1),
        Err(PumpFault::Device) => numbers.meet_fault(durable),
        Err(PumpFault::Dead) => numbers.meet_fault(durable),
    }
}
