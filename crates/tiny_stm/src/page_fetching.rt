//! A turn that brings a page into a frame.

ghost use Rattle.back_store.specs.BackView.{state_of};
ghost use Rattle.core_events.specs.Conditions.{May};
ghost use Rattle.core_events.specs.Events.{take_turn as turn_taken};
ghost use Rattle.core_table.specs.Steps.{BelongsTo};
ghost use Rattle.std.specs.Prelude.{◌≡◌, ◌<◌, [], IfErr, IfOk, false};
ghost use Rattle.stm_turns.specs.Turns.{DurableRises, IsBare, IsOwn};
ghost use Rattle.tiny_stm.specs.Fetch.{ComesTo, HasFetchFault, HasFetched, SettledTo, KeepsTurn};
ghost use Rattle.tiny_stm.specs.Frames.{MayMakeRoom};
ghost use Rattle.tiny_stm.specs.Paging.{HasTurn, Paged};

use crate::entries::see_entry;
use crate::fetch_fault::FetchFault;
use crate::filling::{Steps, place_page};
use crate::finding::find_frame;
use pmem_trait::Medium;
use stm_slots::home::Home;
use stm_turns::{SlotSeat, give_turn, raise_reproduced, settle, take_turn};

/// Brings a page into a frame that was seen to be absent. All up to `reproduced` is in the home.
fn show_absent<M: Medium>(
    stm: &Steps<M>,
    seat: &mut SlotSeat<M>,
    home: &mut Home<M>,
    page: u64,
    reproduced: u64,
) -> Result<(), FetchFault>
    requires room { MayMakeRoom M.sight stm.now.events page seat.old home.old }
    requires settled { SettledTo M.sight stm.now.events reproduced seat.old home.old }
    ensures step { Paged M.sight stm.now.events seat.old seat.new home.new }
    ensures comes { ComesTo M.sight stm.now.events page result seat.new home.new }
{
    let touch = stm.load_touch(seat, page);
    if touch > reproduced {
        return Err(FetchFault::Behind { touch, reproduced });
    }
    match find_frame(&stm.events, seat, home, page) {
        Ok(frame) => place_page(stm, seat, home, page, frame),
        Err(pinned) => Err(FetchFault::AllPinned {
            page: pinned.page,
            seen: pinned.seen,
        }),
    }
}

/// Persists what boxes have, and brings a page into a frame unless it is in one. `durable` is the
/// durable number that the seat knows.
fn bring_in<M: Medium>(
    stm: &Steps<M>,
    seat: &mut SlotSeat<M>,
    home: &mut Home<M>,
    own: u64,
    page: u64,
    durable: &mut u64,
) -> Result<(), FetchFault>
    requires turn { HasTurn M.sight stm.now.events seat.old home.old }
    requires own { IsOwn own seat.old }
    requires thread { own < stm.now.events.setup.threads }
    requires alive { (state_of home.old.back).dead ≡ false }
    requires page { page < stm.now.events.setup.pages }
    ensures steps { KeepsTurn M.sight stm.now.events seat.old seat.new home.new }
    ensures durable { DurableRises durable.old durable.new seat.old seat.new }
    ensures comes { ComesTo M.sight stm.now.events page result seat.new home.new }
{
    match settle(&stm.events, seat, home, own, durable) {
        Ok(reproduced) => {
            // The word is that already: so the seat is told.
            raise_reproduced(&stm.events, seat, home, reproduced);
            if see_entry(&stm.events, seat, home, page) != 0 {
                return Ok(());
            }
            show_absent(stm, seat, home, page, reproduced)
        }
        Err(_) => Err(FetchFault::Device),
    }
}

/// Takes the turn, does the work of a pump, brings a page into a frame unless it is in one, and
/// gives the turn back. `durable` is the durable number that the seat knows, whatever the turn
/// meets. The page may be out again as soon as the turn is given.
pub fn fetch<M: Medium>(
    stm: &Steps<M>,
    seat: &mut SlotSeat<M>,
    own: u64,
    page: u64,
    durable: &mut u64,
) -> Result<(), FetchFault>
    requires seat { BelongsTo stm.now.events seat.old }
    // The own thread, which has no open number.
    requires own { IsOwn own seat.old }
    requires may { May stm.now.events.setup turn_taken seat.old.me.0.view }
    requires bare { seat.old.me.1 ≡ [] }
    requires page { page < stm.now.events.setup.pages }
    ensures left { IsBare stm.now.events seat.old seat.new }
    ensures durable { DurableRises durable.old durable.new seat.old seat.new }
    ensures ok { IfOk result (λ done. HasFetched M.sight stm.now.events page seat.old seat.new) }
    ensures err { IfErr result (λ fault. HasFetchFault M.sight stm.now.events page fault
        seat.old seat.new) }
{
    let mut home = match take_turn(&stm.events, seat, own) {
        Ok(home) => home,
        Err(seen) => return Err(FetchFault::Held { seen }),
    };
    if home.back.is_dead() {
        give_turn(&stm.events, seat, home, true);
        return Err(FetchFault::Dead);
    }
    let result = bring_in(stm, seat, &mut home, own, page, durable);
    let failed = home.back.is_dead();
    give_turn(&stm.events, seat, home, failed);
    result
}
