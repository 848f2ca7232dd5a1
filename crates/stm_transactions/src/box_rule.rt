//! What a draw and a post do with the slots of boxes, by the rule of the slots.

use core_table::event_table::Seat;
use core_table::served::Served;
use core_table::slot_rule::{AnySlots, SlotRule};
use core_table::stm::Stm;
use core_table::terms::Terms;
use dude_base::redo::Redo;
use dude_base::write_list::WriteList;

/// A rule of slots that has a draw, which may take the slot of the thread's next box, and a post,
/// which gives it with the record.
pub trait BoxRule<S, X, K>: SlotRule<S, X, K> + Sized {
    ghost use Rattle.core_events.specs.Conditions.{May, record_of};
    ghost use Rattle.core_events.specs.Events.{post};
    ghost use Rattle.core_table.specs.Abouts.{drawing};
    ghost use Rattle.core_table.specs.Steps.{BelongsTo};
    ghost use Rattle.std.specs.Prelude.{◌≡◌, List, Some};
    ghost use Rattle.stm_transactions.specs.Boxes.{HasBox, TakesBox, GivesBox};

    /// What stands in the slot that a draw takes; nothing, where it takes none.
    ghost taken: { List S };

    /// Draws the next number, for what is served and these writes.
    fn draw(
        stm: &Stm<S, X, K, Self>,
        seat: &mut Seat<S, X>,
        served: &Served,
        writes: &WriteList,
    ) -> u64
        requires seat { BelongsTo stm.now.events seat.old }
        requires may { May stm.now.events.setup (drawing served.now writes.now)
            seat.old.me.0.view }
        ensures drew { TakesBox taken stm.now.events (drawing served.now writes.now)
            seat.old seat.new result };

    /// Posts the record of the open number in the thread's next box, and ends the transaction.
    fn post(stm: &Stm<S, X, K, Self>, seat: &mut Seat<S, X>, thread: u64, place: u64, redo: Redo)
        requires seat { BelongsTo stm.now.events seat.old }
        requires may { May stm.now.events.setup post seat.old.me.0.view }
        requires thread { seat.old.me.0.view.part.thread ≡ Some thread }
        requires place { seat.old.me.0.view.box.next ≡ place }
        requires record { redo ≡ record_of seat.old.me.0.view.tx.hand }
        requires slot { HasBox taken stm.now.events seat.old }
        ensures posted { GivesBox taken stm.now.events post seat.old seat.new };
}

impl<S> BoxRule<S, (), Terms> for AnySlots {
    ghost use Rattle.std.specs.Prelude.{[]};

    ghost taken = { [] };

    fn draw(
        stm: &Stm<S, (), Terms, Self>,
        seat: &mut Seat<S, ()>,
        served: &Served,
        writes: &WriteList,
    ) -> u64 {
        stm.draw(seat, served, writes)
    }

    fn post(
        stm: &Stm<S, (), Terms, Self>,
        seat: &mut Seat<S, ()>,
        thread: u64,
        place: u64,
        redo: Redo,
    ) {
        stm.post(seat, thread, place, redo.number());
    }
}
