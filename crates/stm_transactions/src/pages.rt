//! Pages are pinned, and let go.

ghost use Rattle.core_events.specs.Keyed.{find};
ghost use Rattle.core_table.specs.Steps.{BelongsTo};
ghost use Rattle.std.specs.Prelude.{◌≡◌, ◌<◌, [], ◌∷◌, None, IfOk, IfErr, IfSome, OnErr};
ghost use Rattle.stm_transactions.specs.Pins.{HasPinned, IsPinning, IsPinningOne, LeavesPins, LetsGo, Reaches, ReachesNone, StopsPin, pin_list, pins_in};
ghost use Rattle.stm_transactions.specs.Seats.{OutlastsReading, Stays};

use crate::pinned::Pinned;
use core_table::event_table::Seat;
use core_table::places::ENTRY;
use core_table::slot_rule::SlotRule;
use core_table::stm::Stm;
use word_space::stop::Stop;

/// Pins a page that isn't pinned, and answers its frame.
#[tactic(auto, using(crate::proofs::Pins::entry_may, crate::proofs::Pins::pin_may, crate::proofs::Pins::is_frame, crate::proofs::Pins::out_paged, crate::proofs::Pins::out_why, crate::proofs::Pins::busy_paged, crate::proofs::Pins::busy_why, crate::proofs::Pins::pinned_paged, crate::proofs::Pins::stays_twice, crate::proofs::Pins::stays_once))]
pub fn pin_page<S, X, K, P: SlotRule<S, X, K>>(
    stm: &Stm<S, X, K, P>,
    seat: &mut Seat<S, X>,
    page: u64,
) -> Result<u64, Stop>
    requires seat { BelongsTo stm.now.events seat.old }
    requires slots { OutlastsReading P.fact stm.now.events }
    requires page { page < stm.now.events.setup.pages }
    requires pinning { IsPinning (pins_in seat.old) seat.old.me.0.view }
    requires new { find (pins_in seat.old) page ≡ None }
    ensures stays { Stays stm.now.events seat.old seat.new }
    ensures ok { IfOk result (HasPinned page seat.old seat.new) }
    ensures err { OnErr result (LeavesPins seat.old seat.new) }
    ensures why { IfErr result (StopsPin stm.now.events page seat.old seat.new) }
{
    let kept = stm.entry(seat, page);
    if kept == 0 {
        return Err(Stop::Out { page });
    }
    let seen = stm.pin(seat, page, kept);
    if seen != kept {
        return Err(Stop::Busy { page, seen });
    }
    Ok(kept / ENTRY - 1)
}

/// Takes the pin back, where there is one.
#[tactic(auto, using(crate::proofs::Pins::unpin_may, crate::proofs::Pins::let_go_paged, crate::proofs::Pins::none_paged, crate::proofs::Pins::stays_once, crate::proofs::Pins::stays_none))]
pub fn let_go<S, X, K, P: SlotRule<S, X, K>>(
    stm: &Stm<S, X, K, P>,
    seat: &mut Seat<S, X>,
    pinned: &Option<Pinned>,
)
    requires seat { BelongsTo stm.now.events seat.old }
    requires slots { OutlastsReading P.fact stm.now.events }
    requires pinning { IsPinningOne pinned.now seat.old.me.0.view }
    ensures stays { Stays stm.now.events seat.old seat.new }
    ensures gone { LetsGo seat.old seat.new }
{
    if let Some(p) = pinned {
        stm.unpin(seat, p.page);
    }
}

// The frame of the page, where it is the one that is pinned.
fn frame_of(pinned: &Option<Pinned>, page: u64) -> Option<u64>
    ensures some { IfSome result (λ frame. pin_list pinned.now ≡ (page, frame) ∷ []) }
{
    match pinned {
        Some(p) if p.page == page => Some(p.frame),
        _ => None,
    }
}

/// Has this page pinned, and no other, and answers its frame. Where it can't be pinned none is.
pub fn reach<S, X, K, P: SlotRule<S, X, K>>(
    stm: &Stm<S, X, K, P>,
    seat: &mut Seat<S, X>,
    page: u64,
    pinned: &mut Option<Pinned>,
) -> Result<u64, Stop>
    requires seat { BelongsTo stm.now.events seat.old }
    requires slots { OutlastsReading P.fact stm.now.events }
    requires page { page < stm.now.events.setup.pages }
    requires pinning { IsPinningOne pinned.old seat.old.me.0.view }
    ensures stays { Stays stm.now.events seat.old seat.new }
    ensures ok { IfOk result (Reaches page pinned.new seat.old seat.new) }
    ensures err { OnErr result (ReachesNone pinned.new seat.old seat.new) }
    ensures why { IfErr result (StopsPin stm.now.events page seat.old seat.new) }
{
    if let Some(frame) = frame_of(pinned, page) {
        return Ok(frame);
    }
    let_go(stm, seat, pinned);
    *pinned = None;
    let frame = pin_page(stm, seat, page)?;
    *pinned = Some(Pinned { page, frame });
    Ok(frame)
}
