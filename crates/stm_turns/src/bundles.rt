//! The bundle of the records in hand is persisted, or they stay in their boxes.

ghost use Rattle.back_store.specs.BackView.{state_of};
ghost use Rattle.dude_base.specs.Records.{first_of};
ghost use Rattle.std.specs.Prelude.{◌≡◌, ◌+◌, ◌<◌, [], IfOk, true, false};
ghost use Rattle.stm_turns.specs.Bundles.{FoundFull, InTurnWith, IsFullStill, SteppedBy};
ghost use Rattle.stm_turns.specs.Turns.{Advanced, LivesBy, RisesTo};

use crate::calls::catch_up;
use crate::gathering::Gathering;
use crate::letting::{empty_all, put_all_back};
use crate::slots::SlotSeat;
use back_store::BackFault;
use pmem_trait::Medium;
use stm_slots::home::Home;
use stm_slots::known_back;
use stm_slots::slots_rule::Events;

/// Persists the bundle of the records in hand, and empties their boxes. Where its ring is full they
/// stay in hand; where the device fails they are put back into their boxes. Answers whether it was
/// persisted.
fn persist<M: Medium>(
    events: &Events<M>,
    seat: &mut SlotSeat<M>,
    home: &mut Home<M>,
    gathering: &Gathering,
) -> Result<bool, BackFault>
    requires with { InTurnWith M.sight events.now seat.old home.old gathering.now }
    requires alive { (state_of home.old.back).dead ≡ false }
    ensures step { SteppedBy M.sight events.now result seat.old seat.new home.new gathering.now }
    ensures rises { IfOk result (λ done. done ≡ true
        → RisesTo (first_of gathering.now.bundle) gathering.now.ring
        (state_of home.old.back) (state_of home.new.back)) }
    // Where the ring was full nothing changed, and the first number of the bundle isn't the next one
    // to reproduce.
    ensures full { IfOk result (λ done. done ≡ false
        → FoundFull gathering.now.ring gathering.now.bundle
        (state_of home.old.back) (state_of home.new.back)) }
    ensures late { IfOk result (λ done. done ≡ false
        → (state_of home.old.back).log.reproduced + 1 < first_of gathering.now.bundle) }
    ensures life { LivesBy result (state_of home.old.back) (state_of home.new.back) }
{
    match known_back::persist(&mut home.back, gathering.ring, &gathering.bundle) {
        Ok(()) => {
            empty_all(events, seat, home, gathering);
            Ok(true)
        }
        Err(BackFault::RingFull { used: _, need: _ }) => Ok(false),
        Err(BackFault::Device) => {
            put_all_back(events, seat, home, gathering);
            Err(BackFault::Device)
        }
        Err(BackFault::Dead) => unreachable!(),
    }
}

/// Persists the bundle of the records in hand, and empties their boxes; where its ring is full, once
/// more when all was announced and reproduced. Answers whether it was persisted: else the records
/// are in their boxes again. `durable` is the durable number that the seat knows.
pub fn persist_bundle<M: Medium>(
    events: &Events<M>,
    seat: &mut SlotSeat<M>,
    home: &mut Home<M>,
    gathering: &Gathering,
    durable: &mut u64,
) -> Result<bool, BackFault>
    requires with { InTurnWith M.sight events.now seat.old home.old gathering.now }
    requires alive { (state_of home.old.back).dead ≡ false }
    ensures step { Advanced M.sight events.now durable.old durable.new
        seat.old seat.new home.new [] }
    ensures rises { IfOk result (λ done. done ≡ true
        → RisesTo (first_of gathering.now.bundle) gathering.now.ring
        (state_of home.old.back) (state_of home.new.back)) }
    // It stays only where its ring is full still when all was reproduced,
    ensures stays { IfOk result (λ done. done ≡ false
        → IsFullStill gathering.now.ring gathering.now.bundle (state_of home.new.back)) }
    // and its first number isn't the next one to reproduce.
    ensures late { IfOk result (λ done. done ≡ false
        → (state_of home.old.back).log.reproduced + 1 < first_of gathering.now.bundle) }
    ensures life { LivesBy result (state_of home.old.back) (state_of home.new.back) }
{
    if persist(events, seat, home, gathering)? {
        return Ok(true);
    }
    if let Err(fault) = catch_up(events, seat, home, durable) {
        put_all_back(events, seat, home, gathering);
        return Err(fault);
    }
    if persist(events, seat, home, gathering)? {
        return Ok(true);
    }
    put_all_back(events, seat, home, gathering);
    Ok(false)
}
