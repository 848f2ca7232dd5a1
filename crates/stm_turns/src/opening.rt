//! The table of running transactions is made.

ghost use Rattle.core_events.specs.Setups.{IsSetup};
ghost use Rattle.core_table.specs.Steps.{IsOpened};
ghost use Rattle.std.specs.Prelude.{◌≡◌, ◌≤◌, ◌^◌, IfOk, IfErr};
ghost use Rattle.stm_slots.specs.Beside.{nothing_beside};
ghost use Rattle.stm_slots.specs.Opened.{IsFirst};
ghost use Rattle.stm_slots.specs.Opening.{setup_of};
ghost use Rattle.stm_turns.specs.Starts.{AreFirstSlots, MayStart};

use crate::slots::SlotSeat;
use atomic_table::Refused;
use back_store::Back;
use core_table::event_table::EventTable;
use core_table::terms::Terms;
use dude_base::limits::MAX_RINGS;
use pmem_trait::Medium;
use shadow_pages::pager::Pager;
use std::alloc::Global;
use std::snapshot::Snapshot;
use stm_slots::home::Home;
use stm_slots::known_back;
use stm_slots::opening::Opening;
use stm_slots::slot::Slot;
use stm_slots::slots_rule::Events;

/// The words and slots at the start, and the first seat. Where memory is wanting the slots come
/// back.
pub fn new_events<M: Medium>(
    alloc: Global,
    opening: &Opening<M>,
    slots: Vec<Slot<M>>,
) -> Result<(Events<M>, SlotSeat<M>), Refused<Slot<M>, Global>>
    requires setup { IsSetup (setup_of M.sight opening.now) }
    requires pages { (setup_of M.sight opening.now).pages ≤ 2 ^ 32 }
    requires first { AreFirstSlots M.sight opening.now slots.items }
    ensures ok { IfOk result (λ r.
        IsOpened (setup_of M.sight) nothing_beside r.0 opening.now r.1) }
    ensures err { IfErr result (λ r. r.slots.items ≡ slots.items) }
{
    EventTable::new(alloc, opening, &opening.terms, slots)
}

/// What the table starts with, and what the back's slot has then: nothing waits in the back, which
/// has the opening words at home.
pub fn first_home<M: Medium>(terms: Terms, back: Back<M>, pager: Pager) -> (Opening<M>, Home<M>)
    requires may { MayStart terms back pager }
    ensures first { IsFirst M.sight result.0 result.1 }
    ensures key { result.0.back.value ≡ back }
    ensures terms { result.0.terms ≡ terms }
    ensures back { result.1.back ≡ back }
    ensures pager { result.1.pager ≡ pager }
{
    // Such a back is known without records.
    known_back::start(&back);
    let opening = Opening {
        terms,
        back: Snapshot::of(&back),
    };
    let home = Home {
        back,
        pager,
        next: [0; MAX_RINGS as usize],
    };
    (opening, home)
}
