//! The words of the numbers are raised.

ghost use Rattle.back_store.specs.BackView.{state_of};
ghost use Rattle.std.specs.Prelude.{◌≡◌, ℕ};
ghost use Rattle.stm_turns.specs.Turns.{AdvancedOn, HasHome, HasShown, MayRaise, SteppedOn};

use crate::slots::SlotSeat;
use core_table::places::{DURABLE, REPRODUCED};
use pmem_trait::Medium;
use std::marker::Brand;
use stm_slots::home::Home;
use stm_slots::slots_rule::Events;

/// Raises the durable word to the back's durable number.
pub fn raise_durable<M: Medium>(
    events: &Events<M>,
    seat: &mut SlotSeat<M>,
    home: &Home<M>,
    number: u64,
)
    requires raise { MayRaise M.sight events.now seat.old home.now number }
    ensures step { (before : ℕ)
        → AdvancedOn M.sight events.now before number seat.old seat.new home.now home.now }
    ensures raised { seat.new.me.0.view.turn.durable ≡ number }
{
    events.store_by::<Brand, (u64, &Home<M>)>(seat, DURABLE, number, &(number, home));
}

/// Raises the reproduced word to the back's reproduced number, to which the durable word was raised.
pub fn raise_reproduced<M: Medium>(
    events: &Events<M>,
    seat: &mut SlotSeat<M>,
    home: &Home<M>,
    number: u64,
)
    requires turn { HasHome M.sight events.now seat.old home.now }
    requires raised { seat.old.me.0.view.turn.durable ≡ number }
    requires number { (state_of home.now.back).log.reproduced ≡ number }
    ensures step { SteppedOn M.sight events.now seat.old seat.new home.now home.now }
    ensures raised { seat.new.me.0.view.turn.durable ≡ number }
    ensures shown { HasShown seat.new number }
{
    events.store_by::<Brand, (u64, &Home<M>)>(seat, REPRODUCED, number, &(number, home));
}
