//! Transactions begin to run over a back.

ghost use Rattle.std.specs.Prelude.{◌≡◌};
ghost use Rattle.stm_slots.specs.declared.slot.Slot.TheVariants.{Home as HomeSlot};
ghost use Rattle.tiny_stm.specs.FirstSlots.{EndsInHome, HasBehind, IsHomeSlot};

use crate::fitting::fits;
use crate::home_words::words_of;
use crate::room::Room;
use crate::stm::{Pass, Stm};
use crate::stm_fault::StmFault;
use atomic_table::Refused;
use back_store::Back;
use core_table::terms::Terms;
use dude_base::limits::PAGE;
use dude_base::run::Run;
use pmem_trait::Medium;
use std::alloc::Global;
use stm_slots::home::Home;
use stm_slots::slot::Slot;
use stm_transactions::rule::let_transact;
use stm_turns::{first_home, new_events};

impl<M: Medium> Stm<M> {
    ghost use Rattle.back_store.specs.BackView.{state_of};
    ghost use Rattle.core_events.specs.Setups.{IsSetup};
    ghost use Rattle.std.specs.Prelude.{◌≡◌, ◌⊎◌, ◌↔◌, ◌*◌, ◌^◌, ◌≤◌, IfOk, IfErr};
    ghost use Rattle.stm_turns.specs.Starts.{MayStart};
    ghost use Rattle.tiny_stm.specs.Fitting.{FitsStore, Refuses};
    ghost use Rattle.tiny_stm.specs.Rooms.{IsRoom};
    ghost use Rattle.tiny_stm.specs.Started.{IsAtRest, IsStarted, RunsOver};
    ghost use Rattle.tiny_stm.specs.Tables.{table_of};
    ghost use Rattle.tiny_stm.specs.declared.stm_fault.StmFault.TheVariants.{Size, NoMemory};

    /// Begins to run transactions of so many threads over a back that is at rest at this number,
    /// with the words of its home. The memory of the end is taken here too. Where it is refused the
    /// back and the words come back.
    pub fn new(
        alloc: Global,
        back: Back<M>,
        words: Vec<u64>,
        number: u64,
        run: &Run,
        threads: u64,
    ) -> Result<(Stm<M>, Pass), (StmFault, Back<M>, Vec<u64>)>
        requires { IsAtRest back words.items number }
        ensures ok { IfOk result (λ r.
            IsStarted M.sight back words.items number run.now threads (table_of r.0) r.1) }
        // Sizes exactly where they are out of their limits.
        ensures size { Refuses (Size run.now.frames (state_of back).log.sizes.pages) result
            ↔ (FitsStore (state_of back).log.sizes.rings (state_of back).log.sizes.pages
            run.now threads → ⊥) }
        // And want of memory.
        ensures fault { IfErr result (λ r.
            (r.0 ≡ Size run.now.frames (state_of back).log.sizes.pages) ⊎ (r.0 ≡ NoMemory)) }
        ensures given_back { IfErr result (λ r. (r.1 ≡ back) × (r.2.items ≡ words.items)) }
    {
        let pages = words.len() as u64 / PAGE;
        // The log is lawful, whatever the medium.
        let _durable = back.durable();
        if !fits(run, threads, back.rings(), pages) {
            let fault = StmFault::Size {
                frames: run.frames,
                pages,
            };
            return Err((fault, back, words));
        }
        match Room::take(alloc, pages, run.frames, threads * run.boxes) {
            Ok(room) => {
                let terms = Terms {
                    threads,
                    locks: run.locks,
                    pages,
                    frames: run.frames,
                    boxes: run.boxes,
                    opening: words,
                    first: number,
                };
                Stm::over(alloc, back, terms, room)
            }
            Err(_) => Err((StmFault::NoMemory, back, words)),
        }
    }

    // Makes the table over the back, and its first pass.
    fn over(
        alloc: Global,
        back: Back<M>,
        terms: Terms,
        room: Room<M>,
    ) -> Result<(Stm<M>, Pass), (StmFault, Back<M>, Vec<u64>)>
        requires setup { IsSetup terms }
        requires pages { terms.pages ≤ 2 ^ 32 }
        requires may { MayStart terms back room.pager }
        requires room { IsRoom terms.pages terms.frames (terms.threads * terms.boxes) room }
        ensures ok { IfOk result (λ r. RunsOver M.sight terms back (table_of r.0) r.1) }
        ensures err { IfErr result (λ r.
            (r.0 ≡ NoMemory) × (r.1 ≡ back) × (r.2.items ≡ terms.opening)) }
    {
        let Room {
            pager,
            mut slots,
            rest,
            descriptor,
        } = room;
        let number = terms.first;
        let (opening, home) = first_home(terms, back, pager);
        slots.push_reserved(Slot::Home(home));
        match new_events(alloc, &opening, slots) {
            Ok((events, seat)) => {
                let steps = core_table::stm::Stm { events };
                let_transact(&steps);
                let pass = Pass::first(&steps, seat, descriptor, number);
                let stm = Stm {
                    steps,
                    opening,
                    rest,
                };
                Ok((stm, pass))
            }
            Err(Refused { slots }) => {
                let Home {
                    back,
                    pager: _,
                    next: _,
                } = home_of(slots);
                Err((StmFault::NoMemory, back, words_of(opening)))
            }
        }
    }
}

/// What the last of some slots has, where the others are empty.
fn home_of<M: Medium>(mut slots: Vec<Slot<M>>) -> Home<M>
    requires { EndsInHome slots.items }
    ensures { HasBehind slots.items (HomeSlot result) }
{
    let Some(last) = slots.pop() else {
        unreachable!()
    };
    while let Some(slot) = slots.pop() {
        match slot {
            Slot::Empty => {}
            Slot::Record(_redo) => unreachable!(),
            Slot::Home(_home) => unreachable!(),
        }
    }
    slots.destroy_empty();
    home_in(last)
}

/// What a back's slot has.
pub(crate) fn home_in<M: Medium>(slot: Slot<M>) -> Home<M>
    requires { IsHomeSlot slot }
    ensures { slot ≡ HomeSlot result }
{
    match slot {
        Slot::Home(home) => home,
        Slot::Empty => unreachable!(),
        Slot::Record(_redo) => unreachable!(),
    }
}
