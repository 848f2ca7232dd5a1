//! Views that are made, split and joined.

ghost use Rattle.core_events.specs.Conditions.{record_of};
ghost use Rattle.core_events.specs.Keyed.{one_if};
ghost use Rattle.core_events.specs.Partings.{newcomer, spent, left_of, both_parts, both_turns, both_of};
ghost use Rattle.dude_core.specs.Named.{Tells};
ghost use Rattle.dude_core.specs.Partings.{HasLeft, IsDone, ended_in};
ghost use Rattle.std.specs.Prelude.{◌≡◌, ◌+◌, ◌-◌, ◌<◌, ◌^◌, false, OnOk, OnErr, IfOk};

use crate::about::About;
use crate::boxes::Boxes;
use crate::hand::Hand;
use crate::numbers::Numbers;
use crate::pairs::Pairs;
use crate::part::Part;
use crate::setup::Setup;
use crate::transaction::Transaction;
use crate::turn::Turn;
use crate::view::View;
use crate::view_pages::Paging;
use dude_base::redo::Redo;
use dude_base::write_list::WriteList;
use std::alloc::{AllocError, Global};
use tatp_model::reply::Reply;
use tatp_model::request::Request;

impl View {
    /// A view that has done nothing and has no thread's number.
    pub fn newcomer(alloc: Global, z: &Setup, splits: u64, draws: u64) -> Self
        ensures { result ≡ newcomer z.now splits draws }
    {
        View {
            part: Part {
                is_spent: false,
                thread: None,
                ended: Numbers::new(alloc),
                splits,
            },
            draws,
            drawn: Numbers::new(alloc),
            tx: Transaction::new(alloc, z),
            paging: Paging {
                entries: Pairs::new(alloc),
                pins: Pairs::new(alloc),
                touched: Numbers::new(alloc),
            },
            boxes: Boxes {
                next: 0,
                is_empty: false,
            },
            turn: Turn {
                has_it: false,
                count: 0,
                durable: z.first(),
                met_fault: false,
                full: Pairs::new(alloc),
                touches: Pairs::new(alloc),
                filled: Pairs::new(alloc),
            },
            entries: Vec::new(alloc),
            found: None,
            count: 0,
        }
    }

    /// A view that was joined into another.
    pub fn spent(alloc: Global, z: &Setup) -> Self
        ensures { result ≡ spent z.now }
    {
        let mut view = View::newcomer(alloc, z, 0, 0);
        view.part.is_spent = true;
        view
    }

    /// Whether so many draws, and a split, are left.
    pub fn may_split(&self, draws: u64) -> bool
        ensures { Tells result (HasLeft self.now draws) }
    {
        !self.part.is_spent && 0 < self.part.splits && draws <= self.draws
    }

    /// Leaves so many draws, and a split, to another view.
    pub fn leave(&mut self, draws: u64)
        ensures { self.new ≡ left_of draws self.old }
    {
        self.part.splits = self.part.splits.saturating_sub(1);
        self.draws = self.draws.saturating_sub(draws);
    }

    /// Whether the view isn't spent.
    pub fn is_live(&self) -> bool
        ensures { Tells result (self.now.part.is_spent ≡ false) }
    {
        !self.part.is_spent
    }

    /// Whether the view may be joined into another.
    pub fn may_be_joined(&self) -> bool
        ensures { Tells result (IsDone self.now) }
    {
        !self.part.is_spent && self.is_idle() && !self.turn.has_it
    }

    /// Takes over all that the other view has; what is left of that one means nothing.
    pub fn take_over(&mut self, alloc: Global, other: &mut View) -> Result<(), AllocError>
        requires draws { self.old.draws + other.old.draws < 2 ^ 64 }
        requires splits { self.old.part.splits + (other.old.part.splits + 1) < 2 ^ 64 }
        ensures ok { OnOk result (self.new ≡ both_of self.old other.old) }
        ensures err { OnErr result (self.new ≡ self.old) }
        ensures other { OnErr result (other.new ≡ other.old) }
    {
        let ended = self.part.ended_with(alloc, &other.part)?;
        self.entries.append(&mut other.entries)?;
        self.part.take_over(ended, &other.part);
        self.turn.take_over(&other.turn);
        self.draws += other.draws;
        Ok(())
    }

    /// The record of the number that the view drew: its writes, or none where it is void.
    pub fn record(&self) -> Redo
        ensures { result ≡ record_of self.now.tx.hand }
    {
        self.tx.hand.record()
    }
}

impl Part {
    // The ended threads of both, with the thread of the other.
    fn ended_with(&self, alloc: Global, other: &Part) -> Result<Numbers, AllocError>
        ensures { IfOk result (λ ended. ended ≡ ended_in self.now other.now) }
    {
        let mut ended = self.ended.copy(alloc)?;
        if let Some(thread) = other.thread {
            ended.put_last(thread)?;
        }
        ended.put_all(&other.ended)?;
        Ok(ended)
    }

    // Takes over the other's splits, and has these ended threads.
    fn take_over(&mut self, ended: Numbers, other: &Part)
        requires room { self.old.splits + (other.now.splits + 1) < 2 ^ 64 }
        requires ended { ended ≡ ended_in self.old other.now }
        ensures { self.new ≡ both_parts self.old other.now }
    {
        self.ended = ended;
        self.splits += other.own_splits();
    }

    // Its splits, and one more where it has no thread.
    fn own_splits(&self) -> u64
        requires { self.now.splits + 1 < 2 ^ 64 }
        ensures { result ≡ self.now.splits + (1 - one_if self.now.thread) }
    {
        match self.thread {
            Some(_) => self.splits,
            None => self.splits + 1,
        }
    }
}

impl Turn {
    fn take_over(&mut self, other: &Turn)
        ensures { self.new ≡ both_turns self.old other.now }
    {
        self.durable = self.durable.max(other.durable);
        self.met_fault = self.met_fault || other.met_fault;
    }
}

impl Hand {
    fn record(&self) -> Redo
        ensures { result ≡ record_of self.now }
    {
        if self.decided {
            Redo::of(self.number, self.writes.copy())
        } else {
            Redo::new(self.number)
        }
    }
}

impl Transaction {
    // None is open yet.
    fn new(alloc: Global, z: &Setup) -> Self
        ensures { result ≡ (newcomer z.now 0 0).tx }
    {
        Transaction {
            is_open: false,
            snapshot: 0,
            extension: None,
            reads: Pairs::new(alloc),
            checked: Numbers::new(alloc),
            look: None,
            loaded: None,
            owned: Pairs::new(alloc),
            hand: Hand {
                number: 0,
                decided: false,
                void: false,
                about: About::new(0, 0, Request::Sync, Reply::Durable),
                writes: WriteList::new(),
                stored: Numbers::new(alloc),
            },
        }
    }
}
