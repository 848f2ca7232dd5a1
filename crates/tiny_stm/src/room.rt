//! The memory of running transactions, taken before a table is made.

ghost use Rattle.dude_base.specs.declared.limits.TheConstants.{MAX_BOXES, MAX_RINGS};
ghost use Rattle.std.specs.Prelude.{◌≡◌, ◌+◌, ◌*◌, ◌≤◌, IfOk, replicate};
ghost use Rattle.std.specs.Vec.{vec_capacity};
ghost use Rattle.stm_slots.specs.declared.slot.Slot.TheVariants.{Empty};
ghost use Rattle.tiny_stm.specs.Rooms.{HasFirst};

use crate::posted::Posted;
use pmem_trait::Medium;
use shadow_pages::pager::Pager;
use std::alloc::{AllocError, Global};
use stm_slots::slot::Slot;
use stm_transactions::descriptor::Descriptor;

/// The memory of running transactions: which page is in which frame, the slots of boxes with room
/// for that of the back, and room for the records that stand in boxes at the end.
pub(crate) struct Room<M: Medium> {
    pub(crate) pager: Pager,
    pub(crate) slots: Vec<Slot<M>>,
    pub(crate) rest: Vec<Posted>,
    pub(crate) descriptor: Box<Descriptor>,
}

impl<M: Medium> Room<M> {
    ghost use Rattle.dude_base.specs.declared.limits.TheConstants.{MAX_BOXES, MAX_RINGS};
    ghost use Rattle.std.specs.Prelude.{◌≤◌, IfOk};
    ghost use Rattle.tiny_stm.specs.Rooms.{IsRoom};

    /// Takes it, for so many pages, frames and boxes.
    pub(crate) fn take(
        alloc: Global,
        pages: u64,
        frames: u64,
        boxes: u64,
    ) -> Result<Room<M>, AllocError>
        requires some { 1 ≤ frames }
        requires most { frames ≤ pages }
        requires boxes { boxes ≤ MAX_RINGS * MAX_BOXES }
        ensures { IfOk result (IsRoom pages frames boxes) }
    {
        let pager = first_pages(alloc, pages, frames)?;
        let rest = Vec::with_capacity(alloc, boxes as usize)?;
        let descriptor = Descriptor::new(alloc)?;
        let slots = empty_slots(alloc, boxes)?;
        Ok(Room {
            pager,
            slots,
            rest,
            descriptor,
        })
    }
}

/// The first pages, each in the frame of its own number.
fn first_pages(alloc: Global, pages: u64, frames: u64) -> Result<Pager, AllocError>
    requires some { 1 ≤ frames }
    requires most { frames ≤ pages }
    ensures { IfOk result (HasFirst pages frames frames) }
{
    let mut pager = Pager::new(alloc, pages, frames)?;
    for frame in 0..frames {
        pager.place(frame, frame);
    }
    Ok(pager)
}

/// So many empty slots, with room for one more.
fn empty_slots<M: Medium>(alloc: Global, boxes: u64) -> Result<Vec<Slot<M>>, AllocError>
    requires { boxes ≤ MAX_RINGS * MAX_BOXES }
    ensures items { IfOk result (λ slots. slots.items ≡ replicate boxes Empty) }
    ensures room { IfOk result (λ slots. boxes + 1 ≤ vec_capacity slots) }
{
    let mut slots = Vec::with_capacity(alloc, boxes as usize + 1)?;
    for _ in 0..boxes {
        slots.push_reserved(Slot::Empty);
    }
    Ok(slots)
}
