//! The thread with the turn announces and reproduces.

ghost use Rattle.back_store.specs.BackView.{state_of};
ghost use Rattle.std.specs.Prelude.{IfOk, OnOk};
ghost use Rattle.stm_turns.specs.Turns.{AdvancedOn, EndsSettled, FailsBy, HasHome, IsAnnounced, KeepsPast, KeepsPlaces, SteppedOn};

use crate::raises::{raise_durable, raise_reproduced};
use crate::slots::SlotSeat;
use back_store::BackFault;
use pmem_trait::Medium;
use stm_slots::home::Home;
use stm_slots::known_back;
use stm_slots::slots_rule::Events;

/// Reproduces all that is durable, and raises the reproduced word.
fn reproduce<M: Medium>(
    events: &Events<M>,
    seat: &mut SlotSeat<M>,
    home: &mut Home<M>,
) -> Result<u64, BackFault>
    requires turn { HasHome M.sight events.now seat.old home.old }
    requires announced { IsAnnounced (state_of home.old.back) seat.old.me.0.view.turn.durable }
    ensures step { SteppedOn M.sight events.now seat.old seat.new home.old home.new }
    ensures ok { IfOk result (λ n. EndsSettled seat.new home.new n) }
    ensures past { OnOk result (KeepsPast (state_of home.old.back) (state_of home.new.back)) }
    ensures places { KeepsPlaces home.old home.new }
    ensures cause { FailsBy result (state_of home.old.back) (state_of home.new.back) }
{
    let durable = home.back.durable();
    let number = known_back::reproduce(&mut home.back, durable)?;
    raise_reproduced(events, seat, home, number);
    Ok(number)
}

/// Announces the number to which waiting records lead, raises the durable word to it, and reproduces
/// all up to it. `durable` is the durable number that the seat knows.
pub fn catch_up<M: Medium>(
    events: &Events<M>,
    seat: &mut SlotSeat<M>,
    home: &mut Home<M>,
    durable: &mut u64,
) -> Result<u64, BackFault>
    requires turn { HasHome M.sight events.now seat.old home.old }
    ensures step { AdvancedOn M.sight events.now durable.old durable.new
        seat.old seat.new home.old home.new }
    ensures ok { IfOk result (λ n. EndsSettled seat.new home.new n) }
    ensures past { OnOk result (KeepsPast (state_of home.old.back) (state_of home.new.back)) }
    ensures places { KeepsPlaces home.old home.new }
    ensures cause { FailsBy result (state_of home.old.back) (state_of home.new.back) }
{
    let number = known_back::announce(&mut home.back)?;
    raise_durable(events, seat, home, number);
    *durable = number;
    reproduce(events, seat, home)
}
