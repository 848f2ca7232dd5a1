//! Transactions of a pass.

ghost use Rattle.stm_runs.specs.Kept.{StaysWith};
ghost use Rattle.stm_transactions.specs.Passes.{IsResting};
ghost use Rattle.tiny_stm.specs.Tables.{table_of};
ghost use Rattle.word_space.specs.Steps.{WordsGoOn};

use crate::acting::act_by;
use crate::moves::{Access, Act};
use crate::outcome::{Answer, Ended};
use pmem_fake::MemPmem;
use stm_transactions::begin::begin_in;
use stm_transactions::box_full::BoxFull;
use tatp_model::reply::Reply;
use tatp_model::request::Request;
use tiny_stm::stm::{Pass, Stm};
use word_space::stop::Stop;
use word_space::words::Words;

/// Makes an access, where there is such a word, and keeps what was read behind its place.
fn access<W: Words>(w: &mut W, access: &Access, seen: &mut Vec<(u64, u64)>) -> Result<(), Stop>
    ensures { WordsGoOn W.turns_into w.old w.new }
{
    match *access {
        Access::Read(at) if at < w.len() => {
            let value = w.read(at)?;
            match seen.push((at, value)) {
                Ok(()) => Ok(()),
                Err(_) => Err(Stop::NoMemory),
            }
        }
        Access::Write { at, value } if at < w.len() => w.write(at, value),
        _ => Ok(()),
    }
}

/// Makes accesses up to one that stops.
fn access_all<W: Words>(
    w: &mut W,
    accesses: &[Access],
    seen: &mut Vec<(u64, u64)>,
) -> Result<(), Stop>
    ensures { WordsGoOn W.turns_into w.old w.new }
{
    for k in 0..accesses.len() {
        access(w, &accesses[k], seen)?;
    }
    Ok(())
}

/// Makes these accesses in one transaction of the pass.
pub fn transact(
    stm: &Stm<MemPmem>,
    p: &mut Pass,
    accesses: &[Access],
    seen: &mut Vec<(u64, u64)>,
) -> Ended
    requires { IsResting (table_of stm.now) p.old }
    ensures { StaysWith (table_of stm.now) p.old p.new }
{
    if p.left() == 0 {
        return Ended::NoDraw;
    }
    match begin_in(p, stm.steps()) {
        Err(BoxFull { seen }) => Ended::Full(seen),
        Ok(mut tx) => match access_all(&mut tx, accesses, seen) {
            Err(stop) => Ended::Stopped(stop),
            Ok(()) => match tx.commit(0, 0, &Request::Sync, &Reply::Changed) {
                Ok(done) => Ended::Done {
                    number: done.number,
                    wrote: done.wrote,
                },
                Err(lost) => Ended::Lost(lost),
            },
        },
    }
}

/// A transaction's accesses before and after another pass does something.
#[derive(Clone, Copy)]
pub struct Around<'a> {
    pub before: &'a [Access],
    pub act: &'a Act,
    pub after: &'a [Access],
}

/// Makes accesses in one transaction of the pass, between which the pass `q` does something.
pub fn transact_around(
    stm: &Stm<MemPmem>,
    p: &mut Pass,
    q: &mut Pass,
    around: &Around,
    seen: &mut Vec<(u64, u64)>,
) -> (Option<Answer>, Ended)
    requires rests { IsResting (table_of stm.now) p.old }
    requires other { IsResting (table_of stm.now) q.old }
    ensures stays { StaysWith (table_of stm.now) p.old p.new }
    ensures other { StaysWith (table_of stm.now) q.old q.new }
{
    if p.left() == 0 {
        return (None, Ended::NoDraw);
    }
    match begin_in(p, stm.steps()) {
        Err(BoxFull { seen }) => (None, Ended::Full(seen)),
        Ok(mut tx) => match access_all(&mut tx, around.before, seen) {
            Err(stop) => (None, Ended::Stopped(stop)),
            Ok(()) => {
                let answer = act_by(stm, q, around.act, seen);
                match access_all(&mut tx, around.after, seen) {
                    Err(stop) => (Some(answer), Ended::Stopped(stop)),
                    Ok(()) => match tx.commit(0, 0, &Request::Sync, &Reply::Changed) {
                        Ok(done) => (
                            Some(answer),
                            Ended::Done {
                                number: done.number,
                                wrote: done.wrote,
                            },
                        ),
                        Err(lost) => (Some(answer), Ended::Lost(lost)),
                    },
                }
            }
        },
    }
}
