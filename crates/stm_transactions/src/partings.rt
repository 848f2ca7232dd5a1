//! A pass is split off, and another is taken in.

ghost use Rattle.std.specs.Prelude.{◌≡◌, ◌≤◌, IfOk, OnErr};
ghost use Rattle.stm_transactions.specs.Partings.{AnswersAll, IsJoined, IsSplitOff};
ghost use Rattle.stm_transactions.specs.Passes.{IsResting, OutlastsPasses};

use crate::descriptor::Descriptor;
use crate::pass::Pass;
use crate::pass_numbers::PassNumbers;
use crate::split_fault::SplitFault;
use core_table::slot_rule::SlotRule;
use core_table::stm::Stm;
use std::alloc::Global;

impl<X> Pass<X> {
    /// A new pass with so many of this pass's draws and with no splits; this pass has one split less.
    pub fn split<S, K, P: SlotRule<S, X, K>>(
        &mut self,
        stm: &Stm<S, X, K, P>,
        alloc: Global,
        draws: u64,
    ) -> Result<Pass<X>, SplitFault>
        requires rests { IsResting stm.now.events self.old }
        requires draws { draws ≤ self.old.numbers.left }
        requires slots { OutlastsPasses P.fact P.beside stm.now.events }
        ensures ok { IfOk result (IsSplitOff stm.now.events draws self.old self.new) }
        ensures all { AnswersAll stm.now.events self.old result }
        ensures err { OnErr result (self.new ≡ self.old) }
    {
        let numbers = self.numbers();
        if numbers.splits == 0 {
            return Err(SplitFault::All {
                threads: stm.events.threads(),
            });
        }
        let Ok(blank) = Descriptor::new(alloc) else {
            return Err(SplitFault::NoMemory);
        };
        let (mut seat, descriptor) = self.take_seat();
        let mut other = stm.split(&mut seat, draws);
        let thread = stm.number(&mut other);
        self.put_seat(seat, descriptor, numbers.part(draws));
        let newcomer = PassNumbers::newcomer(thread, draws, numbers.opening);
        Ok(Pass::of_seat(other, blank, newcomer))
    }

    /// Takes in another pass, with its entries, its draws and splits, its threads, and what its turns met.
    pub fn join<S, K, P: SlotRule<S, X, K>>(&mut self, stm: &Stm<S, X, K, P>, mut other: Pass<X>)
        requires rests { IsResting stm.now.events self.old }
        requires other { IsResting stm.now.events other }
        requires slots { OutlastsPasses P.fact P.beside stm.now.events }
        ensures joined { IsJoined stm.now.events self.old other self.new }
    {
        let numbers = self.numbers().join(&other.numbers());
        let (mut seat, descriptor) = self.take_seat();
        let (others, _blank) = other.take_seat();
        stm.join(&mut seat, others);
        self.put_seat(seat, descriptor, numbers);
    }
}
