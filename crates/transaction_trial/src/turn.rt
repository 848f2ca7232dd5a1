//! A turn in which a thread empties its own boxes, whose records are dropped.

ghost use Rattle.stm_transactions.specs.Passes.{IsResting};
ghost use Rattle.transaction_trial.specs.Turning.{IsTurning};

use crate::small::Small;
use core_table::event_table::Seat;
use core_table::foreseen::law_of_foreseen;
use core_table::slot_rule::AnySlots;
use core_table::terms::Terms;
use stm_transactions::pass::Pass;
use stm_transactions::pass_numbers::PassNumbers;

/// Takes the turn, where nobody has it, and empties the boxes of the pass.
pub fn drop_records(stm: &Small, p: &mut Pass<()>)
    requires { IsResting stm.now.events p.old }
    ensures { IsResting stm.now.events p.new }
{
    let numbers = p.numbers();
    let (mut seat, kept) = p.take_seat();
    if stm.take_turn(&mut seat, numbers.thread) == 0 {
        empty_boxes(stm, &mut seat, &numbers);
        stm.give_turn(&mut seat, false);
    }
    p.put_seat(seat, kept, numbers);
}

// Empties the full boxes of the thread.
fn empty_boxes(stm: &Small, seat: &mut Seat<(), ()>, numbers: &PassNumbers)
    requires { IsTurning stm.now.events numbers.now seat.old }
    ensures { IsTurning stm.now.events numbers.now seat.new }
{
    law_of_foreseen::<(), (), Terms, AnySlots>();
    for place in 0..stm.events.boxes() {
        if stm.see_full(seat, numbers.thread, place) != 0 {
            stm.empty_box(seat, numbers.thread, place);
        }
    }
}
