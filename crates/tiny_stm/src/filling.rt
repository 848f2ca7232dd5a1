//! The words of a page are brought into a frame, and the page is shown.

ghost use Rattle.back_store.specs.BackView.{state_of};
ghost use Rattle.core_events.specs.Conditions.{KeepsFrame};
ghost use Rattle.shadow_pages.specs.PageMap.{IsFree};
ghost use Rattle.std.specs.Prelude.{◌≡◌, IfErr, OnErr, OnOk, true};
ghost use Rattle.tiny_stm.specs.Filling.{IsFilledIn, MayFill, MayPlace};
ghost use Rattle.tiny_stm.specs.Frames.{MayMakeRoom};
ghost use Rattle.tiny_stm.specs.Paging.{Paged};
ghost use Rattle.tiny_stm.specs.declared.fetch_fault.FetchFault.TheVariants.{Device};

use crate::fetch_fault::FetchFault;
use core_table::places::ENTRY;
use core_table::stm::Stm;
use dude_base::limits::PAGE;
use pmem_trait::Medium;
use std::marker::Brand;
use stm_slots::beside::Beside;
use stm_slots::home::Home;
use stm_slots::known_back;
use stm_slots::opening::Opening;
use stm_slots::slot::Slot;
use stm_slots::slots_rule::{Events, KeptSlots};
use stm_turns::SlotSeat;

/// What threads make the steps of running transactions on.
pub type Steps<M> = Stm<Slot<M>, Beside, Opening<M>, KeptSlots<M>>;

/// Stores the words of a page in its frame.
fn fill_words<M: Medium>(
    stm: &Steps<M>,
    seat: &mut SlotSeat<M>,
    home: &Home<M>,
    page: u64,
    frame: u64,
    words: &[u64; PAGE as usize],
)
    requires fill { MayFill M.sight stm.now.events page frame words.now seat.old home.now }
    ensures fill { MayFill M.sight stm.now.events page frame words.now seat.new home.now }
    ensures step { Paged M.sight stm.now.events seat.old seat.new home.now }
    ensures filled { IsFilledIn seat.new.me.0.view page frame }
{
    for at in 0..PAGE {
        stm.fill(seat, page, frame, page * PAGE + at, words[at as usize]);
    }
}

/// Shows a page, whose words are all filled in a frame.
fn show<M: Medium>(
    events: &Events<M>,
    seat: &mut SlotSeat<M>,
    home: &mut Home<M>,
    page: u64,
    frame: u64,
)
    requires room { MayMakeRoom M.sight events.now page seat.old home.old }
    requires free { IsFree home.old.pager frame }
    requires filled { IsFilledIn seat.old.me.0.view page frame }
    ensures step { Paged M.sight events.now seat.old seat.new home.new }
    ensures back { home.new.back ≡ home.old.back }
    ensures shown { KeepsFrame seat.new.me.0.view page }
{
    home.pager.place(page, frame);
    let place = events.entry_place(page);
    let entry = (frame + 1) * ENTRY;
    events.store_by::<Brand, (u64, u64, &Home<M>)>(seat, place, entry, &(page, frame, &*home));
}

/// Brings an absent page into a free frame.
pub fn place_page<M: Medium>(
    stm: &Steps<M>,
    seat: &mut SlotSeat<M>,
    home: &mut Home<M>,
    page: u64,
    frame: u64,
) -> Result<(), FetchFault>
    requires place { MayPlace M.sight stm.now.events page frame seat.old home.old }
    ensures step { Paged M.sight stm.now.events seat.old seat.new home.new }
    ensures ok { OnOk result (KeepsFrame seat.new.me.0.view page) }
    ensures back { OnOk result (state_of home.new.back ≡ state_of home.old.back) }
    ensures err { IfErr result (λ fault. fault ≡ Device) }
    ensures died { OnErr result ((state_of home.new.back).dead ≡ true) }
{
    let mut words = [0; PAGE as usize];
    let Ok(()) = known_back::read_page(&mut home.back, page, &mut words) else {
        return Err(FetchFault::Device);
    };
    fill_words(stm, seat, home, page, frame, &words);
    show(&stm.events, seat, home, page, frame);
    Ok(())
}
