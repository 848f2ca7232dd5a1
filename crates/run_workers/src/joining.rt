//! The jobs come together: their passes are joined, and what they did is one list.

ghost use Rattle.run_workers.specs.Jobs.{MayJoin};
ghost use Rattle.run_workers.specs.Joined.{AreJoined, TakesIn};
ghost use Rattle.std.specs.Prelude.{◌≡◌, ◌++◌, ◌+◌, ◌<◌, ◌≤◌, length, vec_capacity, vec_len};
ghost use Rattle.stm_transactions.specs.Passes.{IsResting};

use crate::job::Job;
use crate::jobs::Jobs;
use crate::joined::Joined;
use core_table::stm::Stm;
use stm_transactions::rule::{TransactionRule, let_transact};
use tatp_model::done::Done;

/// Joins the passes of all jobs into one, and puts together what they did, in order of file and index. It takes no memory: the
/// list of the first job is kept, and those of the others are put behind what it has.
pub fn join_jobs<S, X, K, P: TransactionRule<S, X, K>>(
    stm: &Stm<S, X, K, P>,
    jobs: Jobs<X>,
) -> Joined<X>
    requires { MayJoin stm.now.events jobs }
    ensures { AreJoined stm.now.events jobs.each.items result }
{
    let Jobs { each, mut counts } = jobs;
    let mut others = each.into_iter();
    let Some(first) = others.next() else {
        unreachable!()
    };
    counts.push_reserved(first.done.len() as u64);
    let mut joined = Joined {
        pass: first.pass,
        done: first.done,
        counts,
        end: first.end,
    };
    while let Some(job) = others.next() {
        joined.take_in(stm, job);
    }
    joined
}

impl<X> Joined<X> {
    // Takes in one more job, for which there is room.
    fn take_in<S, K, P: TransactionRule<S, X, K>>(&mut self, stm: &Stm<S, X, K, P>, job: Job<X>)
        requires rests { IsResting stm.now.events self.old.pass }
        requires other { IsResting stm.now.events job.pass }
        requires done { vec_len self.old.done + length job.done.items ≤ vec_capacity self.old.done }
        requires counts { vec_len self.old.counts < vec_capacity self.old.counts }
        ensures joined { TakesIn stm.now.events job self.old self.new }
        ensures done { vec_capacity self.new.done ≡ vec_capacity self.old.done }
        ensures counts { vec_capacity self.new.counts ≡ vec_capacity self.old.counts }
    {
        let_transact(stm);
        append(&mut self.done, &job.done);
        self.counts.push_reserved(job.done.len() as u64);
        self.end = self.end.worse(job.end);
        self.pass.join(stm, job.pass);
    }
}

// Appends these, for which there is room.
fn append(done: &mut Vec<Done>, more: &[Done])
    requires { vec_len done.old + length more.now ≤ vec_capacity done.old }
    ensures items { done.new.items ≡ done.old.items ++ more.now }
    ensures capacity { vec_capacity done.new ≡ vec_capacity done.old }
{
    for d in more {
        done.push_reserved(*d);
    }
}
