//! The thread with the turn loads the entry of a page, and makes pages absent.

ghost use Rattle.core_events.specs.Events.{entry as entry_loaded, evict as page_evicted};
ghost use Rattle.core_table.specs.Steps.{IsAfter};
ghost use Rattle.std.specs.Prelude.{◌≡◌, ◌<◌};
ghost use Rattle.stm_slots.specs.Turns.{map_evicted};
ghost use Rattle.tiny_stm.specs.Frames.{IsUnpinned, MayMakeRoom};
ghost use Rattle.tiny_stm.specs.Paging.{FindsEntry, HandMoved, IsMapOf, Paged};

use core_table::change::Change;
use core_table::places::ENTRY;
use pmem_trait::Medium;
use std::marker::Brand;
use stm_slots::home::Home;
use stm_slots::slots_rule::Events;
use stm_turns::SlotSeat;

/// Loads the entry of a page. Since the last step the hand of the pager may have moved.
pub fn see_entry<M: Medium>(
    events: &Events<M>,
    seat: &mut SlotSeat<M>,
    home: &Home<M>,
    page: u64,
) -> u64
    requires turn { HandMoved M.sight events.now seat.old home.now }
    requires page { page < events.now.setup.pages }
    ensures step { Paged M.sight events.now seat.old seat.new home.now }
    ensures view { IsAfter events.now (entry_loaded page) seat.old seat.new result }
    ensures found { FindsEntry events.now.setup home.now.pager page result }
{
    let place = events.entry_place(page);
    events.load_by::<Brand, (u64, &Home<M>)>(seat, place, &(page, home))
}

/// Makes a page absent for another one, unless its entry isn't `kept` any more, and gives the entry
/// found.
#[inline(never)]
pub fn evict<M: Medium>(
    events: &Events<M>,
    seat: &mut SlotSeat<M>,
    home: &mut Home<M>,
    wanted: u64,
    page: u64,
    kept: u64,
) -> u64
    requires room { MayMakeRoom M.sight events.now wanted seat.old home.old }
    requires page { page < events.now.setup.pages }
    requires kept { IsUnpinned seat.old.me.0.view home.old.pager page kept }
    ensures step { Paged M.sight events.now seat.old seat.new home.new }
    ensures back { home.new.back ≡ home.old.back }
    ensures pager { home.new.pager ≡ map_evicted page seat.old.me.0.view home.old.pager result }
    ensures view { IsAfter events.now (page_evicted page) seat.old seat.new result }
    ensures found { FindsEntry events.now.setup home.old.pager page result }
    ensures map { IsMapOf events.now.setup home.new.pager }
{
    let place = events.entry_place(page);
    let unpinned = kept / ENTRY * ENTRY;
    let absent = Change::Exchange {
        from: unpinned,
        to: 0,
    };
    let seen = events.change_by::<Brand, (u64, &Home<M>)>(seat, place, absent, &(page, &*home));
    if seen == kept {
        home.pager.drop_page(page);
    }
    seen
}
