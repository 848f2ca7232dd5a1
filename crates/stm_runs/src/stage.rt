//! Running transactions, and all their passes.

ghost use Rattle.core_events.specs.Telling.{HasAll};
ghost use Rattle.std.proofs.Props.{props};
ghost use Rattle.stm_runs.specs.Kept.{AreHeld};
ghost use Rattle.stm_transactions.specs.Passes.{IsResting, pass_view};
ghost use Rattle.tiny_stm.specs.Tables.{table_of};

use crate::acting::act_by;
use crate::moves::{Act, Move};
use crate::outcome::{Answer, Ended, Outcome};
use crate::settings::Settings;
use crate::transacting::{Around, transact_around};
use dude_recover::Opened;
use pmem_fake::MemPmem;
use std::alloc::Global;
use tiny_stm::closed::Closed;
use tiny_stm::stm::{Pass, Stm};
use tiny_stm::stm_fault::StmFault;

/// Running transactions, and all their passes.
pub struct Stage {
    alloc: Global,
    stm: Stm<MemPmem>,
    first: Pass,
    others: Vec<Pass>,
    ghost held: { AreHeld (table_of stm) first others.items } by { Prim.hlevel props },
}

impl Stage {
    ghost use Rattle.std.specs.Prelude.{◌<◌, length};
    ghost use Rattle.tiny_stm.specs.Started.{IsAtRest};

    /// Transactions begin to run over an image.
    pub fn over(
        alloc: Global,
        opened: Opened<MemPmem>,
        settings: &Settings,
    ) -> Result<Stage, StmFault>
        requires { IsAtRest opened.back opened.words.items opened.number }
    {
        let Opened {
            back,
            lay: _,
            sizes: _,
            words,
            number,
        } = opened;
        match Stm::new(alloc, back, words, number, &settings.run, settings.threads) {
            Ok((stm, first)) => Ok(Stage {
                alloc,
                stm,
                first,
                others: Vec::new(alloc),
            }),
            Err((fault, _, _)) => Err(fault),
        }
    }

    /// A pass, where it is there.
    pub fn pass(&self, who: u64) -> Option<&Pass> {
        match who {
            0 => Some(&self.first),
            _ => self.others.get((who - 1) as usize),
        }
    }

    /// Has passes do this, and keeps what they read.
    pub fn play(&mut self, made: &Move, seen: &mut Vec<(u64, u64)>) -> Outcome {
        match made {
            Move::Split(draws) => {
                let others = &mut self.others;
                split_off(&self.stm, &mut self.first, self.alloc, others, *draws)
            }
            Move::Join => join_last(&self.stm, &mut self.first, &mut self.others),
            Move::One { who, act } => match self.act(*who, act, seen) {
                Some(answer) => Outcome::One(answer),
                None => Outcome::Nothing,
            },
            Move::Around {
                who,
                before,
                other,
                act,
                after,
            } => {
                let around = Around { before, act, after };
                self.around(*who, *other, &around, seen)
            }
        }
    }

    // Has one pass do something.
    fn act(&mut self, who: u64, act: &Act, seen: &mut Vec<(u64, u64)>) -> Option<Answer> {
        if who == 0 {
            return Some(act_by(&self.stm, &mut self.first, act, seen));
        }
        let k = (who - 1) as usize;
        if k >= self.others.len() {
            return None;
        }
        Some(act_by(&self.stm, &mut self.others[k], act, seen))
    }

    // Has one pass do something between accesses of another one; one of them is the first pass.
    fn around(
        &mut self,
        who: u64,
        other: u64,
        around: &Around,
        seen: &mut Vec<(u64, u64)>,
    ) -> Outcome {
        let k = (who.max(other).saturating_sub(1)) as usize;
        if who.min(other) != 0 || who == other || k >= self.others.len() {
            return Outcome::Nothing;
        }
        let (answer, ended) = self.around_at(k, who == 0, around, seen);
        Outcome::Around(answer, ended)
    }

    // Has the other pass at `k` do something between accesses of the first one, or the other way round.
    fn around_at(
        &mut self,
        k: usize,
        is_of_first: bool,
        around: &Around,
        seen: &mut Vec<(u64, u64)>,
    ) -> (Option<Answer>, Ended)
        requires { k < length self.old.others.items }
    {
        let other = &mut self.others[k];
        if is_of_first {
            transact_around(&self.stm, &mut self.first, other, around, seen)
        } else {
            transact_around(&self.stm, other, &mut self.first, around, seen)
        }
    }

    /// Joins all passes, and closes.
    pub fn close(self) -> Closed<MemPmem> {
        let Stage {
            alloc: _,
            stm,
            mut first,
            others,
        } = self;
        join_all(&stm, &mut first, others);
        stm.close(first)
    }
}

/// The first pass gives so many draws to a new one.
fn split_off(
    stm: &Stm<MemPmem>,
    first: &mut Pass,
    alloc: Global,
    others: &mut Vec<Pass>,
    draws: u64,
) -> Outcome
    requires { AreHeld (table_of stm.now) first.old others.old.items }
    ensures { AreHeld (table_of stm.now) first.new others.new.items }
{
    if draws > first.left() || others.reserve(1).is_err() {
        return Outcome::Nothing;
    }
    match stm.split(first, alloc, draws) {
        Ok(pass) => {
            let new = pass.left();
            others.push_reserved(pass);
            Outcome::Split {
                left: first.left(),
                new,
            }
        }
        Err(fault) => Outcome::NoSplit(fault),
    }
}

/// The last pass is joined into the first one.
fn join_last(stm: &Stm<MemPmem>, first: &mut Pass, others: &mut Vec<Pass>) -> Outcome
    requires { AreHeld (table_of stm.now) first.old others.old.items }
    ensures { AreHeld (table_of stm.now) first.new others.new.items }
{
    match others.pop() {
        Some(other) => {
            stm.join(first, other);
            Outcome::Joined
        }
        None => Outcome::Nothing,
    }
}

/// Joins all other passes into the first one.
fn join_all(stm: &Stm<MemPmem>, first: &mut Pass, others: Vec<Pass>)
    requires { AreHeld (table_of stm.now) first.old others.items }
    ensures rests { IsResting (table_of stm.now) first.new }
    ensures all { HasAll (table_of stm.now).setup (pass_view first.new) }
{
    let mut others = others;
    while let Some(other) = others.pop() {
        stm.join(first, other);
    }
}

impl Drop for Stage {
    fn drop(self) {
        let _closed = self.close();
    }
}
