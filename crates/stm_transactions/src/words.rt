//! A transaction as words.

ghost use Rattle.dude_base.specs.Writes.{put_write, IsWide};
ghost use Rattle.pmem_trait.specs.Faults.{up_to_last};
ghost use Rattle.std.specs.Prelude.{◌≡◌, ◌<◌, ◌≤◌, ◌+◌, IsTrue, MatchBool, vec_len, vec_capacity};

use crate::bad_lock::BadLock;
use crate::descriptor::Descriptor;
use crate::lock_for::lock_for;
use crate::owning::own_lock;
use crate::reading::read_word;
use crate::rule::{TransactionRule, let_transact};
use crate::tx::TxOver;
use dude_base::limits::{MAX_WRITES, PAGE};
use dude_base::write::Write;
use dude_base::write_list::WriteList;
use word_space::stop::Stop;
use word_space::words::Words;

// Makes room for one read more, where there is none.
fn make_room(reads: &mut Vec<(u64, u64)>) -> bool
    ensures items { reads.new.items ≡ reads.old.items }
    ensures len { vec_len reads.new ≡ vec_len reads.old }
    ensures room { IsTrue result → vec_len reads.new < vec_capacity reads.new }
{
    reads.len() < reads.capacity() || reads.reserve(1).is_ok()
}

// Whether a write of the word `at` would be of a word too many.
fn is_wide(writes: &WriteList, at: u64) -> bool
    ensures { MatchBool result (IsWide writes.now at) (IsWide writes.now at → ⊥) }
{
    writes.len() == MAX_WRITES && writes.find(at).is_none()
}

// Notes a write that isn't too wide.
fn note(writes: &mut WriteList, at: u64, value: u64)
    requires { IsWide writes.old at → ⊥ }
    ensures { writes.new ≡ put_write writes.old (record { at = at; value = value }) }
{
    let Ok(()) = writes.put(Write { at, value }) else {
        unreachable!()
    };
}

// One refusal more.
fn one_more(refused: u64) -> u64
    ensures counted { result ≡ up_to_last (refused + 1) }
    ensures rises { refused ≤ result }
    ensures some { 0 < result }
{
    refused.saturating_add(1)
}

impl<'a, S, X, K, P: TransactionRule<S, X, K>> Words for TxOver<'a, S, X, K, P, Box<Descriptor>> {
    ghost use Rattle.std.specs.Prelude.{◌≡◌, ◌<◌, IfErr};
    ghost use Rattle.stm_transactions.specs.Transactions.{CountsRefusal, KeepsPages, StopsReading, StopsWriting, TurnsInto, turns_begin, turns_on, tx_sight, tx_well_formed};
    ghost use Rattle.word_space.specs.Steps.{AnswersSeen, IsSeenAt, MakesRead, MakesWrite, Shows, UsesWords, with_word};
    ghost use Rattle.word_space.specs.declared.stop.Stop.{Stop};

    ghost sight = { tx_sight };

    ghost turns_into = { TurnsInto };

    ghost well_formed = { tx_well_formed };

    ghost begins = { turns_begin };

    ghost goes_on = { turns_on };

    fn len(&self) -> u64 {
        self.stm.events.pages() * PAGE
    }

    fn read(&mut self, at: u64) -> Result<u64, Stop>
        requires inside { at < (tx_sight self.old).count }
        ensures uses { UsesWords tx_sight TurnsInto 1 0 result self.old self.new }
        ensures reads { MakesRead tx_sight at result self.old self.new }
        ensures value { AnswersSeen tx_sight result self.old self.new (IsSeenAt at) }
        ensures why { IfErr result (StopsReading at self.old self.new) }
        ensures refused { CountsRefusal result self.old self.new }
    {
        let own = &mut *self.lists;
        if let Some(value) = own.writes.find(at) {
            return Ok(value);
        }
        if !make_room(&mut own.reads) {
            self.stopped = Some(Stop::NoMemory);
            return Err(Stop::NoMemory);
        }
        let_transact(self.stm);
        match read_word(
            self.stm,
            &mut self.seat,
            self.numbers.thread,
            &mut self.snapshot,
            at,
            own.reads.as_slice(),
            &mut self.pinned,
        ) {
            Ok(value) => {
                own.reads.push_reserved((at, value));
                Ok(value)
            }
            Err(stop) => {
                self.stopped = Some(stop);
                self.refused = one_more(self.refused);
                Err(stop)
            }
        }
    }

    // It touches no page.
    fn write(&mut self, at: u64, value: u64) -> Result<(), Stop>
        requires inside { at < (tx_sight self.old).count }
        ensures uses { UsesWords tx_sight TurnsInto 0 1 result self.old self.new }
        ensures pages { KeepsPages self.old self.new }
        ensures writes { MakesWrite tx_sight at value result self.old self.new }
        ensures shown { Shows tx_sight result self.old self.new (with_word at value) }
        ensures why { IfErr result (StopsWriting at self.old self.new) }
        ensures refused { CountsRefusal result self.old self.new }
    {
        let own = &mut *self.lists;
        if is_wide(&own.writes, at) {
            self.stopped = Some(Stop::Wide);
            return Err(Stop::Wide);
        }
        let_transact(self.stm);
        let lock = lock_for(self.stm, at);
        if let Err(BadLock { lock, seen }) = own_lock(
            self.stm,
            &mut self.seat,
            &mut own.held,
            lock,
            self.numbers.thread,
            &mut self.snapshot,
            own.reads.as_slice(),
        ) {
            let stop = Stop::Conflict { lock, seen };
            self.stopped = Some(stop);
            self.refused = one_more(self.refused);
            return Err(stop);
        }
        note(&mut own.writes, at, value);
        Ok(())
    }
}
