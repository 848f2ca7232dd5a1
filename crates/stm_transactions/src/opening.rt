//! The first pass of a table.

ghost use Rattle.std.specs.Prelude.{◌≡◌};
ghost use Rattle.stm_transactions.specs.Opening.{IsFirstPass, IsFirstSeat};
ghost use Rattle.stm_transactions.specs.Passes.{OutlastsPasses};

use crate::descriptor::Descriptor;
use crate::pass::Pass;
use crate::pass_numbers::PassNumbers;
use core_table::event_table::Seat;
use core_table::slot_rule::SlotRule;
use core_table::stm::Stm;

impl<X> Pass<X> {
    /// The pass of the first seat, of a table that was opened at this number.
    pub fn first<S, K, P: SlotRule<S, X, K>>(
        stm: &Stm<S, X, K, P>,
        mut seat: Seat<S, X>,
        descriptor: Box<Descriptor>,
        opening: u64,
    ) -> Pass<X>
        requires seat { IsFirstSeat stm.now.events seat }
        requires opening { opening ≡ stm.now.events.setup.first }
        requires slots { OutlastsPasses P.fact P.beside stm.now.events }
        ensures { IsFirstPass stm.now.events result }
    {
        let thread = stm.number(&mut seat);
        Pass::of_seat(
            seat,
            descriptor,
            PassNumbers::first(thread, stm.events.threads(), opening),
        )
    }
}
