//! The pages of written words are pinned.

ghost use Rattle.core_table.specs.Steps.{BelongsTo};
ghost use Rattle.dude_base.specs.declared.limits.TheConstants.{MAX_WRITES as MOST, PAGE as PAGE_WORDS};
ghost use Rattle.std.specs.Prelude.{◌≡◌, ◌<◌, ◌*◌, [], length, All, IfErr, OnOk, OnErr};
ghost use Rattle.stm_transactions.specs.CommitRule.{OutlastsEnding};
ghost use Rattle.stm_transactions.specs.Pages.{ArePagesOf, HasPages, PinsNoMore, PinsOnce, StopsPages};
ghost use Rattle.stm_transactions.specs.Pins.{IsPinning, IsPinningAll, StopsPin};
ghost use Rattle.stm_transactions.specs.Seats.{Stays};

use crate::pages::pin_page;
use core_table::event_table::Seat;
use core_table::slot_rule::SlotRule;
use core_table::stm::Stm;
use dude_base::limits::PAGE;
use dude_base::write::Write;
use dude_base::write_list::WriteList;
use word_space::stop::Stop;

/// Pins a page, unless it is one of those that are pinned, and notes it with its frame.
#[tactic(auto, using(crate::proofs::PinningAll::same_pins, crate::proofs::PinningAll::more_pins, crate::proofs::PinningAll::not_among, crate::proofs::PinningAll::pins_here))]
pub fn pin_once<S, X, K, P: SlotRule<S, X, K>>(
    stm: &Stm<S, X, K, P>,
    seat: &mut Seat<S, X>,
    page: u64,
    frames: &mut WriteList,
) -> Result<(), Stop>
    requires seat { BelongsTo stm.now.events seat.old }
    requires slots { OutlastsEnding P.fact stm.now.events }
    requires page { page < stm.now.events.setup.pages }
    requires pinning { IsPinningAll frames.old seat.old.me.0.view }
    requires room { length frames.old < MOST }
    ensures stays { Stays stm.now.events seat.old seat.new }
    ensures ok { OnOk result (PinsOnce page frames.old frames.new seat.old seat.new) }
    ensures err { OnErr result (PinsNoMore frames.old frames.new seat.old seat.new) }
    ensures why { IfErr result (StopsPin stm.now.events page seat.old seat.new) }
{
    if frames.find(page).is_some() {
        return Ok(());
    }
    let _len = frames.len();
    let frame = pin_page(stm, seat, page)?;
    let Ok(()) = frames.put(Write {
        at: page,
        value: frame,
    }) else {
        unreachable!()
    };
    Ok(())
}

/// Pins the pages of all writes, each once, and notes them with their frames.
pub fn pin_all<S, X, K, P: SlotRule<S, X, K>>(
    stm: &Stm<S, X, K, P>,
    seat: &mut Seat<S, X>,
    writes: &WriteList,
    frames: &mut WriteList,
) -> Result<(), Stop>
    requires seat { BelongsTo stm.now.events seat.old }
    requires slots { OutlastsEnding P.fact stm.now.events }
    requires inside { All (λ w. w.at < stm.now.events.setup.pages * PAGE_WORDS) writes.now }
    requires pinning { IsPinning [] seat.old.me.0.view }
    requires none { frames.old ≡ [] }
    ensures stays { Stays stm.now.events seat.old seat.new }
    ensures paged { HasPages frames.new seat.old seat.new }
    ensures ok { OnOk result (ArePagesOf writes.now frames.new) }
    ensures why { IfErr result (StopsPages writes.now stm.now.events seat.old seat.new) }
{
    for k in 0..writes.len() {
        let w = writes.get(k);
        if let Err(stop) = pin_once(stm, seat, w.at / PAGE, frames) {
            return Err(stop);
        }
    }
    Ok(())
}
