//! A pass takes the turn, and brings a page into a frame.

ghost use Rattle.std.specs.Prelude.{◌≡◌, ◌<◌};
ghost use Rattle.stm_transactions.specs.Passes.{IsResting};
ghost use Rattle.tiny_stm.specs.Turned.{FetchesPage, numbers_fetched};

use crate::fetch_fault::FetchFault;
use crate::page_fetching;
use crate::stm::{Pass, Steps, Stm};
use pmem_trait::Medium;
use stm_transactions::pass_numbers::PassNumbers;

impl<M: Medium> Stm<M> {
    ghost use Rattle.tiny_stm.specs.Tables.{table_of};

    /// Takes the turn, does the work of a pump, brings a page into a frame unless it is in one, and
    /// gives the turn back. After an `Ok` the page was in a frame in this turn; another turn may
    /// make it absent before a transaction reads it. After `Device` and `Dead` the pass has met a
    /// fault. Nothing says that `AllPinned` doesn't come again and again.
    pub fn fetch(&self, p: &mut Pass, page: u64) -> Result<(), FetchFault>
        requires rests { IsResting (table_of self.now) p.old }
        requires page { page < (table_of self.now).setup.pages }
        ensures { FetchesPage M.sight (table_of self.now) page result p.old p.new }
    {
        fetch_on(&self.steps, p, page)
    }
}

/// What `Stm::fetch` does, over what transactions make their steps on.
pub fn fetch_on<M: Medium>(steps: &Steps<M>, p: &mut Pass, page: u64) -> Result<(), FetchFault>
    requires rests { IsResting steps.now.events p.old }
    requires page { page < steps.now.events.setup.pages }
    ensures { FetchesPage M.sight steps.now.events page result p.old p.new }
{
    let numbers = p.numbers();
    let (mut seat, descriptor) = p.take_seat();
    let mut durable = numbers.durable;
    let result = page_fetching::fetch(steps, &mut seat, numbers.thread, page, &mut durable);
    p.put_seat(seat, descriptor, after_fetch(numbers, &result, durable));
    result
}

fn after_fetch(numbers: PassNumbers, answer: &Result<(), FetchFault>, durable: u64) -> PassNumbers
    ensures { result ≡ numbers_fetched answer.now durable numbers }
{
    match answer {
        Ok(()) => numbers.have_turn(durable),
        Err(FetchFault::Held { seen: _ }) => numbers.refuse(1),
        Err(FetchFault::Behind { .. }) => numbers.have_turn(durable).refuse(1),
        Err(FetchFault::AllPinned { .. }) => numbers.have_turn(durable).refuse(1),
        Err(FetchFault::Device) => numbers.meet_fault(durable),
        Err(FetchFault::Dead) => numbers.meet_fault(durable),
    }
}
