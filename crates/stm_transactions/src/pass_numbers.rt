//! What a pass tells of itself in numbers.

ghost use Rattle.std.specs.Prelude.{◌≡◌, ◌+◌, ◌^◌, ◌<◌, ◌≤◌};
ghost use Rattle.stm_transactions.specs.Numbers.{after_draw, after_fault, after_turn, with_turn, bit, both_numbers, first_numbers, left_numbers, newcomer_numbers, with_entry, with_refusals};

use dude_base::limits::MAX_NUMBER;

/// What a pass tells of itself in numbers.
#[derive(Clone, Copy)]
pub struct PassNumbers {
    pub thread: u64,
    /// The place of its next box.
    pub next: u64,
    /// The greatest number among its entries, or the opening one.
    pub last: u64,
    /// The greatest number that it drew, or 0.
    pub drawn: u64,
    /// How many numbers it may still draw.
    pub left: u64,
    /// How many passes it may still split off.
    pub splits: u64,
    /// The greatest durable number that its turns announced, or the opening one.
    pub durable: u64,
    pub met_fault: bool,
    /// How often it was refused; the count stays at its last value.
    pub refused: u64,
    /// Whether it had a turn since it last drew a number.
    pub had_turn: bool,
    /// The number at the start of all.
    pub opening: u64,
}

impl PassNumbers {
    /// With so many refusals more.
    pub fn refuse(self, more: u64) -> PassNumbers
        ensures { result ≡ with_refusals more self }
    {
        PassNumbers {
            refused: self.refused.saturating_add(more),
            ..self
        }
    }

    /// After a full box: it counts where the pass had a turn since it last drew a number.
    pub fn meet_box(self) -> PassNumbers
        ensures { result ≡ with_refusals (bit self.had_turn) self }
    {
        self.refuse(if self.had_turn { 1 } else { 0 })
    }

    /// After the draw of this number, where each thread has so many boxes.
    pub fn draw(self, number: u64, boxes: u64) -> PassNumbers
        requires { self.next < boxes }
        ensures { result ≡ after_draw number boxes self }
    {
        PassNumbers {
            next: (self.next + 1) % boxes,
            drawn: number,
            left: self.left.saturating_sub(1),
            had_turn: false,
            ..self
        }
    }

    /// With an entry of this number.
    pub fn enter(self, number: u64) -> PassNumbers
        ensures { result ≡ with_entry number self }
    {
        PassNumbers {
            last: number,
            ..self
        }
    }

    /// After a turn that made all up to this number durable. It counts where that is under the last number, or under
    /// one that the pass drew.
    pub fn take_turn(self, durable: u64) -> PassNumbers
        ensures { result ≡ after_turn durable self }
    {
        let is_behind = durable < self.last || durable < self.drawn;
        self.have_turn(durable)
            .refuse(if is_behind { 1 } else { 0 })
    }

    /// After a turn that left this durable number.
    pub fn have_turn(self, durable: u64) -> PassNumbers
        ensures { result ≡ with_turn durable self }
    {
        PassNumbers {
            durable,
            had_turn: true,
            ..self
        }
    }

    /// After a turn that met a fault, and left this durable number.
    pub fn meet_fault(self, durable: u64) -> PassNumbers
        ensures { result ≡ after_fault durable self }
    {
        PassNumbers {
            durable,
            met_fault: true,
            had_turn: true,
            ..self
        }
    }

    /// What is left where a pass with so many draws is split off.
    pub fn part(self, draws: u64) -> PassNumbers
        requires draws { draws ≤ self.left }
        requires splits { 0 < self.splits }
        ensures { result ≡ left_numbers draws self }
    {
        PassNumbers {
            left: self.left - draws,
            splits: self.splits - 1,
            ..self
        }
    }

    /// Those of a pass that did nothing yet, with so many draws and no splits.
    pub fn newcomer(thread: u64, draws: u64, opening: u64) -> PassNumbers
        ensures { result ≡ newcomer_numbers thread draws opening }
    {
        PassNumbers {
            thread,
            next: 0,
            last: opening,
            drawn: 0,
            left: draws,
            splits: 0,
            durable: opening,
            met_fault: false,
            refused: 0,
            had_turn: false,
            opening,
        }
    }

    /// Those of the first pass, of a table for so many threads.
    pub fn first(thread: u64, threads: u64, opening: u64) -> PassNumbers
        ensures { result ≡ first_numbers thread threads opening }
    {
        PassNumbers {
            splits: threads.saturating_sub(1),
            ..PassNumbers::newcomer(thread, MAX_NUMBER.saturating_sub(opening), opening)
        }
    }

    /// Those of a pass that took in another with these numbers.
    pub fn join(self, other: &PassNumbers) -> PassNumbers
        requires left { self.left + other.now.left < 2 ^ 64 }
        requires splits { self.splits + other.now.splits < 2 ^ 64 }
        ensures { result ≡ both_numbers self other.now }
    {
        PassNumbers {
            last: self.last.max(other.last),
            left: self.left + other.left,
            splits: self.splits + other.splits,
            durable: self.durable.max(other.durable),
            met_fault: self.met_fault || other.met_fault,
            ..self
        }
    }
}
