//! Two passes, each in a thread of its own, read all words of new tables.

ghost use Rattle.stm_transactions.specs.Passes.{IsResting};

use crate::place::{Place, open_place};
use dude_base::limits::DEFAULT_LOCKS;
use std::alloc::Global;
use std::thread::{Threads, join};
use stm_transactions::begin::begin_in;
use stm_transactions::pass::Pass;
use stm_transactions::rule::let_transact;
use word_space::words::Words;

/// The words of the tables of so many subscribers, as each of two passes read them in a thread of its own. There is nothing where
/// there are no such tables, or memory is wanting.
pub fn read_tables<R: Threads>(
    rt: &R,
    alloc: Global,
    subscribers: u64,
) -> Option<(Vec<u64>, Vec<u64>)> {
    let (place, mut first) = open_place(alloc, subscribers, 2, DEFAULT_LOCKS)?;
    let_transact(&place.stm);
    let Ok(second) = first.split(&place.stm, alloc, 0) else {
        return None;
    };
    let (one, other) = join(
        rt,
        || read_by(alloc, &place, first),
        || read_by(alloc, &place, second),
    );
    Some((one?, other?))
}

// What the pass reads in one transaction.
fn read_by(alloc: Global, place: &Place, mut p: Pass<()>) -> Option<Vec<u64>>
    requires { IsResting place.now.stm.events p }
{
    let Ok(mut tx) = begin_in(&mut p, &place.stm) else {
        return None;
    };
    read_all(alloc, &mut tx)
}

// All words, from the first to the last.
fn read_all<W: Words>(alloc: Global, words: &mut W) -> Option<Vec<u64>> {
    let mut values = Vec::new(alloc);
    for at in 0..words.len() {
        let Ok(value) = words.read(at) else {
            return None;
        };
        values.push(value).ok()?;
    }
    Some(values)
}
