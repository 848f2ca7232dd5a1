//! The passes of all jobs are joined.

ghost use Rattle.std.specs.Prelude.{All, IfSome};
ghost use Rattle.stm_transactions.specs.Passes.{IsResting};
ghost use Rattle.transaction_trial.specs.Fit.{IsFit};

use crate::job::Job;
use crate::place::Place;
use dude_base::limits::MAX_NUMBER;
use stm_transactions::pass::Pass;
use stm_transactions::rule::let_transact;

/// How many numbers the passes of the jobs drew; nothing where there is no job.
pub fn drawn_by(place: &Place, jobs: Vec<Job>) -> Option<u64>
    requires { All (IsFit place.now.stm.events) jobs.items }
{
    let_transact(&place.stm);
    let mut jobs = jobs;
    let mut pass = take_pass(place, &mut jobs)?;
    for _ in 0..jobs.len() {
        let other = take_pass(place, &mut jobs)?;
        pass.join(&place.stm, other);
    }
    MAX_NUMBER.checked_sub(pass.left())
}

// The pass of the last job, which is taken out.
fn take_pass(_place: &Place, jobs: &mut Vec<Job>) -> Option<Pass<()>>
    requires { All (IsFit _place.now.stm.events) jobs.old.items }
    ensures fit { All (IsFit _place.now.stm.events) jobs.new.items }
    ensures rests { IfSome result (IsResting _place.now.stm.events) }
{
    match jobs.pop() {
        Some(job) => Some(job.pass),
        None => None,
    }
}
