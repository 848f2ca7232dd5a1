//! What the machine of running transactions is set up with, and where its locks, boxes and frame words stand.

ghost use Rattle.core_events.specs.Events.{place_behind};
ghost use Rattle.core_events.specs.Setups.{IsSetup, lock_of, cell_of, box_of, entry_with, frame_in, without_pins};
ghost use Rattle.dude_base.specs.Run.{IsRunWithin};
ghost use Rattle.dude_base.specs.Sizes.{IsFrom};
ghost use Rattle.dude_base.specs.declared.limits.TheConstants.{PAGE as PAGE_WORDS, MAX_NUMBER, MAX_RINGS as MAX_THREADS, MAX_LOCKS as MOST_LOCKS, MAX_BOXES as MOST_BOXES};
ghost use Rattle.dude_core.specs.Named.{Tells};
ghost use Rattle.dude_core.specs.RunSetups.{setup_of};
ghost use Rattle.std.specs.Prelude.{◌≡◌, slice_index, true, ◌+◌, ◌*◌, ◌<◌, ◌≤◌, ◌^◌, false, length, IfSome, IfNone};

use dude_base::limits::{MAX_BOXES, MAX_LOCKS, MAX_RINGS, MIN_FRAMES, PAGE};
use dude_base::run::Run;
use std::marker::Model;

/// What the frame of a page entry is multiplied by; a pin counts 1.
const FRAME: u64 = 65_536;

/// What the machine is set up with, within its limits. It is known what the medium below gives,
/// and no turn ends with a fault.
#[derive(Drop)]
pub struct Setup {
    threads: u64,
    locks: u64,
    pages: u64,
    frames: u64,
    boxes: u64,
    opening: Vec<u64>,
    first: u64,
}

impl Model for Setup {
    ghost use Rattle.core_events.specs.Setups.{Setup};
    ghost use Rattle.dude_core.specs.SetupKept.{IsWithinLimits};
    ghost use Rattle.std.specs.Prelude.{true, false, length, ◌≤◌, ◌^◌};

    ghost Value = { Setup };

    ghost view = { λ a. record { threads = a.threads; locks = a.locks; pages = a.pages; frames = a.frames; boxes = a.boxes; opening = a.opening.items; first = a.first; is_told = true; may_fail = false } };

    ghost invariant = { IsWithinLimits };
}

impl Setup {
    /// The setup of a run with so many threads, over these home words and this number; `None`
    /// exactly where the run or the threads are out of their limits.
    pub fn new(words: Vec<u64>, pages: u64, run: &Run, threads: u64, number: u64) -> Option<Setup>
        requires pages { pages ≤ 2 ^ 32 }
        requires words { length words.items ≡ pages * PAGE_WORDS }
        requires number { number ≤ MAX_NUMBER }
        ensures some { IfSome result (λ z. z ≡ setup_of words.items pages run.now threads number) }
        ensures within { IfSome result (λ z. IsSetup z) }
        ensures none { IfNone result (IsFrom 1 MAX_RINGS threads × IsRunWithin pages run.now → ⊥) }
    {
        if !is_run_within(pages, run) || threads < 1 || MAX_RINGS < threads {
            return None;
        }
        Some(Setup {
            opening: words,
            first: number,
            threads,
            pages,
            frames: run.frames,
            locks: run.locks,
            boxes: run.boxes,
        })
    }

    /// How many threads there are.
    pub fn threads(&self) -> u64
        ensures threads { result ≡ self.now.threads }
        ensures within { IsFrom 1 MAX_THREADS result }
    {
        self.threads
    }

    /// How many locks there are.
    pub fn locks(&self) -> u64
        ensures locks { result ≡ self.now.locks }
        ensures within { IsFrom 1 MOST_LOCKS result }
    {
        self.locks
    }

    /// How many pages there are.
    pub fn pages(&self) -> u64
        ensures pages { result ≡ self.now.pages }
        ensures within { result ≤ 2 ^ 32 }
    {
        self.pages
    }

    /// How many frames there are.
    pub fn frames(&self) -> u64
        ensures frames { result ≡ self.now.frames }
        ensures within { result ≤ self.now.pages }
    {
        self.frames
    }

    /// How many boxes each thread has.
    pub fn boxes(&self) -> u64
        ensures boxes { result ≡ self.now.boxes }
        ensures within { IsFrom 1 MOST_BOXES result }
    {
        self.boxes
    }

    /// The number at the start.
    pub fn first(&self) -> u64
        ensures { result ≡ self.now.first }
    {
        self.first
    }

    /// Whether it is known what the medium below gives: it is.
    pub fn is_told(&self) -> bool
        ensures told { result ≡ self.now.is_told }
        ensures yes { result ≡ true }
    {
        let _first = self.first;
        true
    }

    /// Whether a turn may end with a fault: it may not.
    pub fn may_fail(&self) -> bool
        ensures fails { result ≡ self.now.may_fail }
        ensures no { result ≡ false }
    {
        let _first = self.first;
        false
    }

    /// The home word at the start; 0 past the end.
    pub fn opening(&self, at: u64) -> u64
        ensures { result ≡ slice_index self.now.opening at }
    {
        if at < self.opening.len() as u64 {
            self.opening[at as usize]
        } else {
            0
        }
    }

    /// The lock of a home word.
    pub fn lock_of(&self, at: u64) -> u64
        ensures { result ≡ lock_of self.now at }
    {
        at % self.locks
    }

    /// The number of a thread's box among all boxes.
    pub fn box_of(&self, thread: u64, place: u64) -> u64
        requires thread { thread < self.now.threads }
        requires place { place < self.now.boxes }
        ensures { result ≡ box_of self.now thread place }
    {
        thread * self.boxes + place
    }

    /// The frame word of a home word where its page is in this frame.
    pub fn cell_of(&self, frame: u64, at: u64) -> u64
        requires { frame < self.now.frames }
        ensures { result ≡ cell_of frame at }
    {
        let _limits = self.frames;
        frame * PAGE + at % PAGE
    }

    /// The place behind this one, round the boxes.
    pub fn place_behind(&self, place: u64) -> u64
        requires { place < self.now.boxes }
        ensures { result ≡ place_behind self.now place }
    {
        let boxes = self.boxes;
        (place + 1) % boxes
    }

    /// The entry of a page in this frame that has no pins.
    pub fn entry_of(&self, frame: u64) -> u64
        requires { frame < self.now.frames }
        ensures { result ≡ entry_with frame 0 }
    {
        let _limits = self.frames;
        (frame + 1) * FRAME
    }
}

/// The frame that a page entry names. An entry that is 0 names none, and gives 0.
pub fn frame_in(entry: u64) -> u64
    ensures { result ≡ frame_in entry }
{
    (entry / FRAME).saturating_sub(1)
}

/// The page entry with no pins in it.
pub fn without_pins(entry: u64) -> u64
    ensures { result ≡ without_pins entry }
{
    entry / FRAME * FRAME
}

/// Whether the page entry names this frame.
pub fn names_frame(entry: u64, frame: u64) -> bool
    ensures { Tells result ((0 < entry) × (frame_in entry ≡ frame)) }
{
    0 < entry && frame_in(entry) == frame
}

fn is_run_within(pages: u64, run: &Run) -> bool
    ensures { Tells result (IsRunWithin pages run.now) }
{
    is_from(MIN_FRAMES.min(pages), pages, run.frames)
        && is_from(1, MAX_LOCKS, run.locks)
        && is_from(1, MAX_BOXES, run.boxes)
}

fn is_from(least: u64, most: u64, x: u64) -> bool
    ensures { Tells result (IsFrom least most x) }
{
    least <= x && x <= most
}
