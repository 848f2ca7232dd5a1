//! A turn that persists what the boxes of all threads have.

ghost use Rattle.core_events.specs.Conditions.{May};
ghost use Rattle.core_events.specs.Events.{take_turn as turn_taken};
ghost use Rattle.core_table.specs.Steps.{BelongsTo};
ghost use Rattle.std.specs.Prelude.{◌≡◌, Some, [], IfOk, IfErr};
ghost use Rattle.stm_turns.specs.Pump.{HasPumped, HasPumpFault};
ghost use Rattle.stm_turns.specs.Turns.{DurableRises, IsBare};

use crate::pump_fault::PumpFault;
use crate::pumped::Pumped;
use crate::settling::settle;
use crate::slots::SlotSeat;
use crate::turn::{give_turn, take_turn};
use pmem_trait::Medium;
use stm_slots::slots_rule::Events;

/// Takes the turn, persists the records of full boxes in bundles of consecutive numbers, empties
/// these boxes, announces, reproduces, and gives the turn back. `durable` is the durable number that
/// the seat knows, whatever the turn meets.
pub fn pump<M: Medium>(
    events: &Events<M>,
    seat: &mut SlotSeat<M>,
    own: u64,
    durable: &mut u64,
) -> Result<Pumped, PumpFault>
    requires seat { BelongsTo events.now seat.old }
    requires own { seat.old.me.0.view.part.thread ≡ Some own }
    requires may { May events.now.setup turn_taken seat.old.me.0.view }
    requires idle { seat.old.me.0.view.tx.hand.number ≡ 0 }
    requires bare { seat.old.me.1 ≡ [] }
    ensures left { IsBare events.now seat.old seat.new }
    ensures durable { DurableRises durable.old durable.new seat.old seat.new }
    ensures ok { IfOk result (λ pumped. HasPumped M.sight events.now pumped seat.old seat.new) }
    ensures err { IfErr result (λ fault. HasPumpFault M.sight events.now fault seat.old seat.new) }
{
    let mut home = match take_turn(events, seat, own) {
        Ok(home) => home,
        Err(seen) => return Err(PumpFault::Held { seen }),
    };
    if home.back.is_dead() {
        give_turn(events, seat, home, true);
        return Err(PumpFault::Dead);
    }
    match settle(events, seat, &mut home, own, durable) {
        Ok(number) => {
            give_turn(events, seat, home, false);
            Ok(Pumped {
                durable: number,
                reproduced: number,
            })
        }
        Err(_) => {
            give_turn(events, seat, home, true);
            Err(PumpFault::Device)
        }
    }
}
