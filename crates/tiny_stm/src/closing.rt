//! The last pass ends the transactions.

ghost use Rattle.dude_base.specs.declared.limits.TheConstants.{PAGE as PAGE_WORDS};
ghost use Rattle.std.specs.List.Sorted.{IsNonDecreasingBy, IsPermutation};
ghost use Rattle.std.specs.Mem.Slots.{IsFull, slots_filled, slots_items, slots_len};
ghost use Rattle.std.specs.Prelude.{◌≡◌, ◌+◌, ◌*◌, ◌%◌, ◌<◌, ◌≤◌, [], length};
ghost use Rattle.std.specs.Vec.{vec_capacity, vec_len};
ghost use Rattle.tiny_stm.specs.Collected.{AreCollected, AreCopied, AreOnce, HasPlaces, IsPageCopied, with_slot};
ghost use Rattle.tiny_stm.specs.FirstSlots.{IsHomeSlot};
ghost use Rattle.tiny_stm.specs.Posts.{number_of};

use crate::closed::Closed;
use crate::home_words::words_of;
use crate::opening::home_in;
use crate::posted::Posted;
use crate::stm::{Pass, Stm};
use atomic_table::Closed as EndedTable;
use core_table::places::{CLOCK, ENTRY};
use dude_base::limits::PAGE;
use pmem_trait::Medium;
use std::alloc::Global;
use stm_slots::home::Home;
use stm_slots::slot::Slot;
use stm_turns::close_events;

impl<M: Medium> Stm<M> {
    ghost use Rattle.core_events.specs.Telling.{HasAll};
    ghost use Rattle.stm_transactions.specs.Passes.{IsResting, pass_view};
    ghost use Rattle.tiny_stm.specs.Ended.{HasClosed};
    ghost use Rattle.tiny_stm.specs.Tables.{table_of};

    /// Ends the transactions, once every other pass was joined into this one. It takes no memory.
    pub fn close(self, mut p: Pass) -> Closed<M>
        requires rests { IsResting (table_of self) p }
        requires all { HasAll (table_of self).setup (pass_view p) }
        ensures { HasClosed M.sight (table_of self).key (pass_view p) result }
    {
        let Stm {
            steps,
            opening,
            mut rest,
        } = self;
        let core_table::stm::Stm { events } = steps;
        // The setup is that of the key.
        let _count = events.box_count();
        let threads = events.threads();
        let boxes = events.boxes();
        // Behind the locks stand the page entries and touches, then the words of frames.
        let entries = events.lock_place(0) + events.locks() as usize;
        let cells = entries + 2 * events.pages() as usize;
        let (seat, _kept) = p.take_seat();
        let mut table = close_events(events, seat);
        collect(&mut table, &mut rest, threads, boxes);
        let home = home_in(table.take((threads * boxes) as usize));
        let mut words = words_of(opening);
        copy_shown(&table, entries, cells, words.as_mut_slice());
        let number = table.word(CLOCK);
        table.free();
        sort(&mut rest);
        let Home {
            back,
            pager: _,
            next: _,
        } = home;
        Closed {
            back,
            rest,
            words,
            number,
        }
    }
}

/// Takes the records of all boxes, with the rings of their threads.
fn collect<M: Medium>(
    table: &mut EndedTable<Slot<M>, Global>,
    rest: &mut Vec<Posted>,
    threads: u64,
    boxes: u64,
)
    requires full { IsFull table.old.slots }
    requires some { threads * boxes < slots_len table.old.slots }
    requires once { AreOnce (slots_items table.old.slots) (threads * boxes) }
    requires none { rest.old.items ≡ [] }
    requires room { threads * boxes ≤ vec_capacity rest.old }
    ensures collected { AreCollected (slots_items table.old.slots) (slots_items table.new.slots)
        (slots_filled table.new.slots) boxes (threads * boxes) rest.new.items }
    ensures words { table.new.words ≡ table.old.words }
{
    for ring in 0..threads {
        for place in 0..boxes {
            keep(rest, ring, table.take((ring * boxes + place) as usize));
        }
    }
}

/// Keeps the record of a box, where there is one.
fn keep<M: Medium>(rest: &mut Vec<Posted>, ring: u64, slot: Slot<M>)
    requires no_home { IsHomeSlot slot → ⊥ }
    requires room { vec_len rest.old < vec_capacity rest.old }
    ensures items { rest.new.items ≡ with_slot ring slot rest.old.items }
    ensures capacity { vec_capacity rest.new ≡ vec_capacity rest.old }
{
    match slot {
        Slot::Empty => {}
        Slot::Record(redo) => rest.push_reserved(Posted { ring, redo }),
        Slot::Home(_home) => unreachable!(),
    }
}

/// Copies the words of pages in frames, where entries and frames begin at these places.
fn copy_shown<M: Medium>(
    table: &EndedTable<Slot<M>, Global>,
    entries: usize,
    cells: usize,
    words: &mut [u64],
)
    requires full { IsFull table.now.words }
    requires places { HasPlaces (slots_items table.now.words) entries cells (length words.old) }
    requires whole { length words.old % PAGE_WORDS ≡ 0 }
    ensures { AreCopied (slots_items table.now.words) entries cells words.old (length words.old)
        words.new }
{
    for page in 0..words.len() / PAGE as usize {
        let entry = table.word(entries + page);
        if entry != 0 {
            let frame = (entry / ENTRY).saturating_sub(1) as usize;
            copy_page(table, cells + frame * PAGE as usize, page, words);
        }
    }
}

/// Copies the words of a page from the frame that begins at this place.
fn copy_page<M: Medium>(
    table: &EndedTable<Slot<M>, Global>,
    cells: usize,
    page: usize,
    words: &mut [u64],
)
    requires page { page * PAGE_WORDS + PAGE_WORDS ≤ length words.old }
    requires frame { cells + PAGE_WORDS ≤ length (slots_items table.now.words) }
    requires full { IsFull table.now.words }
    ensures { IsPageCopied (slots_items table.now.words) cells (page * PAGE_WORDS) PAGE_WORDS
        words.old words.new }
{
    let first = page * PAGE as usize;
    for k in 0..PAGE as usize {
        words[first + k] = table.word(cells + k);
    }
}

/// Sorts by number.
fn sort(rest: &mut Vec<Posted>)
    ensures moved { IsPermutation rest.old.items rest.new.items }
    ensures sorted { IsNonDecreasingBy number_of rest.new.items }
{
    rest.sort_unstable_by_key(|posted| posted.redo.number());
}
