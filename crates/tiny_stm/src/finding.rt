//! A frame is found for a page that is absent.

ghost use Rattle.shadow_pages.specs.PageMap.{HasFree, IsFree};
ghost use Rattle.std.specs.Prelude.{IfErr, IfOk};
ghost use Rattle.tiny_stm.specs.Frames.{FoundPinned, KeepsAllPinned, MadeRoom, MayMakeRoom};

use crate::entries::{evict, see_entry};
use crate::pinned_page::PinnedPage;
use core_table::places::ENTRY;
use pmem_trait::Medium;
use stm_slots::home::Home;
use stm_slots::slots_rule::Events;
use stm_turns::SlotSeat;

/// Makes the next page absent for another one, and gives its frame, unless it is pinned.
fn evict_next<M: Medium>(
    events: &Events<M>,
    seat: &mut SlotSeat<M>,
    home: &mut Home<M>,
    wanted: u64,
) -> Result<u64, PinnedPage>
    requires full { ¬ HasFree home.old.pager }
    requires room { MayMakeRoom M.sight events.now wanted seat.old home.old }
    ensures room { MadeRoom M.sight events.now wanted seat.old seat.new home.old home.new }
    ensures ok { IfOk result (IsFree home.new.pager) }
    ensures err { IfErr result (FoundPinned home.old.pager home.new.pager
        seat.old.me.0.view seat.new.me.0.view) }
{
    let Some(page) = home.pager.victim() else {
        unreachable!()
    };
    let kept = see_entry(events, seat, home, page);
    if kept % ENTRY != 0 {
        return Err(PinnedPage { page, seen: kept });
    }
    let seen = evict(events, seat, home, wanted, page, kept);
    if seen != kept {
        return Err(PinnedPage { page, seen });
    }
    Ok(kept / ENTRY - 1)
}

/// Finds a frame for a page: one that is free, or else that of a page that isn't pinned.
pub fn find_frame<M: Medium>(
    events: &Events<M>,
    seat: &mut SlotSeat<M>,
    home: &mut Home<M>,
    wanted: u64,
) -> Result<u64, PinnedPage>
    requires room { MayMakeRoom M.sight events.now wanted seat.old home.old }
    ensures room { MadeRoom M.sight events.now wanted seat.old seat.new home.old home.new }
    ensures ok { IfOk result (IsFree home.new.pager) }
    ensures err { IfErr result (λ pinned. KeepsAllPinned events.now.setup seat.new.me.0.view
        pinned.page pinned.seen) }
{
    if let Some(frame) = home.pager.free() {
        return Ok(frame);
    }
    let frames = events.frames();
    for round in 0..frames {
        match evict_next(events, seat, home, wanted) {
            Ok(frame) => return Ok(frame),
            Err(pinned) => {
                if round + 1 == frames {
                    return Err(pinned);
                }
            }
        }
    }
    unreachable!()
}
