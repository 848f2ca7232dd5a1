//! A pass looks at its next box.

ghost use Rattle.std.specs.Prelude.{IfErr, OnOk};
ghost use Rattle.stm_transactions.specs.Passes.{FindsEmpty, IsRefused, IsResting, OutlastsPasses};

use crate::box_full::BoxFull;
use crate::pass::Pass;
use core_table::slot_rule::SlotRule;
use core_table::stm::Stm;

impl<X> Pass<X> {
    /// Looks at the pass's next box.
    pub fn see_box<S, K, P: SlotRule<S, X, K>>(
        &mut self,
        stm: &Stm<S, X, K, P>,
    ) -> Result<(), BoxFull>
        requires rests { IsResting stm.now.events self.old }
        requires slots { OutlastsPasses P.fact P.beside stm.now.events }
        ensures ok { OnOk result (FindsEmpty stm.now.events self.old self.new) }
        ensures err { IfErr result (λ e. IsRefused stm.now.events e.seen self.old self.new) }
    {
        let numbers = self.numbers();
        let (mut seat, descriptor) = self.take_seat();
        let seen = stm.see_box(&mut seat, numbers.thread, numbers.next);
        if seen != 0 {
            self.put_seat(seat, descriptor, numbers.meet_box());
            return Err(BoxFull { seen });
        }
        self.put_seat(seat, descriptor, numbers);
        Ok(())
    }
}
