//! What a view says of its thread, its transaction, its locks, pages and boxes.

ghost use Rattle.core_events.specs.Conditions.{IsIdle, IsUndrawn, IsSteady, IsUndecided, HasThread, LooksGood, LooksUnowned, Owns, Pins, Writes, KeepsFrame};
ghost use Rattle.core_events.specs.Events.{is_good, looked_word, thread_of, next_box, pinned_frame, kept_entry};
ghost use Rattle.core_events.specs.Keyed.{find};
ghost use Rattle.core_events.specs.Setups.{without_pins};
ghost use Rattle.dude_core.specs.Named.{Tells};
ghost use Rattle.dude_core.specs.Turns.{HasTurn};
ghost use Rattle.std.specs.Prelude.{◌≡◌, ◌==◌, ◌*◌, ◌<◌, ◌≤◌, ℕ, false, Some};

use crate::setup::{Setup, without_pins};
use crate::view::View;

impl View {
    /// Whether the view isn't spent and has a thread's number.
    pub fn is_awake(&self) -> bool
        ensures { Tells result ((self.now.part.is_spent ≡ false) × HasThread self.now) }
    {
        match self.part.thread {
            Some(_) => !self.part.is_spent,
            None => false,
        }
    }

    /// Whether it isn't spent, and has a thread's number and the turn.
    pub fn has_turn(&self) -> bool
        ensures { Tells result (HasTurn self.now) }
    {
        self.is_awake() && self.turn.has_it
    }

    /// The thread's number; 0 where it has none.
    pub fn thread(&self) -> u64
        ensures { result ≡ thread_of self.now }
    {
        self.part.thread.unwrap_or(0)
    }

    /// Whether no transaction is open, or one that has no number, owns no lock and has no pin.
    pub fn is_idle(&self) -> bool
        ensures { Tells result (IsIdle self.now) }
    {
        self.tx.hand.number == 0 && self.tx.owned.is_empty() && self.paging.pins.is_empty()
    }

    /// Whether a transaction is open that has drawn no number.
    pub fn is_undrawn(&self) -> bool
        ensures { Tells result (IsUndrawn self.now.tx) }
    {
        self.tx.is_open && self.tx.hand.number == 0
    }

    /// Whether a transaction is open that has drawn no number and has no extension.
    pub fn is_steady(&self) -> bool
        ensures { Tells result (IsSteady self.now.tx) }
    {
        self.is_undrawn() && self.tx.extension.is_none()
    }

    /// Whether there is a number in hand that is neither decided nor void.
    pub fn is_undecided(&self) -> bool
        ensures { Tells result (IsUndecided self.now.tx.hand) }
    {
        0 < self.tx.hand.number && !self.tx.hand.decided && !self.tx.hand.void
    }

    /// Whether this word of a lock is the thread's own, or unowned with a version up to the snapshot.
    pub fn is_good(&self, word: u64) -> bool
        ensures { result ≡ is_good self.now.part.thread self.now.tx.snapshot word }
    {
        if word % 2 == 0 {
            word / 2 <= self.tx.snapshot
        } else {
            word / 2 == self.thread()
        }
    }

    /// Whether the last look was of this lock, and good.
    pub fn looks_good(&self, lock: u64) -> bool
        ensures { Tells result (LooksGood self.now lock) }
    {
        match self.tx.look {
            Some((looked, word)) => looked == lock && self.is_good(word),
            None => false,
        }
    }

    /// Whether the last look was of this lock, which was unowned, with a version up to the snapshot.
    pub fn looks_unowned(&self, lock: u64) -> bool
        ensures { Tells result (LooksUnowned self.now lock) }
    {
        match self.tx.look {
            Some((looked, word)) => looked == lock && is_version(word, self.tx.snapshot),
            None => false,
        }
    }

    /// The word that was looked at; 1 where there is none.
    pub fn looked_word(&self) -> u64
        ensures { result ≡ looked_word self.now.tx.look }
    {
        match self.tx.look {
            Some((_, word)) => word,
            None => 1,
        }
    }

    /// Whether it owns the lock.
    pub fn owns(&self, lock: u64) -> bool
        ensures { Tells result (Owns self.now lock) }
    {
        self.tx.owned.has_key(lock)
    }

    /// Whether it pins the page.
    pub fn pins(&self, page: u64) -> bool
        ensures { Tells result (Pins self.now page) }
    {
        self.paging.pins.has_key(page)
    }

    /// The frame of the page that it pins; 0 where it doesn't.
    pub fn pinned_frame(&self, page: u64) -> u64
        ensures { result ≡ pinned_frame self.now page }
    {
        self.paging.pins.find(page).unwrap_or(0)
    }

    /// Whether the number in hand writes to the home word.
    pub fn writes_to(&self, at: u64) -> bool
        ensures { Tells result (Writes self.now at) }
    {
        match self.tx.hand.writes.find(at) {
            Some(_) => true,
            None => false,
        }
    }

    /// The entry that it keeps of the page; 0 where it keeps none.
    pub fn kept_entry(&self, page: u64) -> u64
        ensures { result ≡ kept_entry self.now page }
    {
        self.paging.entries.find(page).unwrap_or(0)
    }

    /// Whether it keeps an entry of the page that isn't 0.
    pub fn keeps_frame(&self, page: u64) -> bool
        ensures { Tells result (KeepsFrame self.now page) }
    {
        match self.paging.entries.find(page) {
            Some(entry) => 0 < entry,
            None => false,
        }
    }

    /// Whether the kept entry of the page, but for its pins, is this word.
    pub fn would_evict(&self, page: u64, found: u64) -> bool
        ensures { result ≡ (found == without_pins (kept_entry self.now page)) }
    {
        found == without_pins(self.kept_entry(page))
    }

    /// Whether the kept touch of the page, if there is one, is up to this number.
    pub fn touch_is_up_to(&self, page: u64, number: u64) -> bool
        ensures { Tells result ((y : ℕ) → find self.now.turn.touches page ≡ Some y → y ≤ number) }
    {
        match self.turn.touches.find(page) {
            Some(touch) => touch <= number,
            None => true,
        }
    }

    /// The number of the view's next box among all boxes.
    pub fn next_box(&self, z: &Setup) -> u64
        requires thread { thread_of self.now < z.now.threads }
        requires place { self.now.box.next < z.now.boxes }
        ensures { result ≡ next_box z.now self.now }
    {
        z.box_of(self.thread(), self.boxes.next)
    }
}

/// Whether the word is a version up to the snapshot, and no owner's.
fn is_version(word: u64, snapshot: u64) -> bool
    ensures { Tells result ((u : ℕ) × (word ≡ 2 * u) × (u ≤ snapshot)) }
{
    word % 2 == 0 && word / 2 <= snapshot
}
