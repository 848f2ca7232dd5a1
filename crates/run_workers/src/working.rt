//! A worker hands the requests of its file, one after another, to transactions.

ghost use Rattle.request_attempts.specs.Turns.{HasFailed};
ghost use Rattle.run_workers.specs.Job.{KeepsPlace};
ghost use Rattle.run_workers.specs.Sending.{DoesMore, IsSameLane, SendsFirst};
ghost use Rattle.run_workers.specs.Steps.{HasTurned};
ghost use Rattle.run_workers.specs.Work.{EndsSo, IsNew, IsOver, IsServedTo, MayServeRequests, work_table};
ghost use Rattle.run_workers.specs.declared.work_end.WorkEnd.TheVariants.{Device as DeviceEnd};
ghost use Rattle.std.specs.Prelude.{◌≡◌, ◌+◌, ◌<◌, IfErr, OnOk, length};
ghost use Rattle.stm_transactions.specs.Passes.{IsResting};

use crate::job::Job;
use crate::work::Work;
use crate::work_end::WorkEnd;
use request_attempts::gate::Gate;
use request_attempts::serve::serve_one;
use request_attempts::turn_fault::TurnFault;
use request_attempts::turns::Turns;
use std::sync::atomic::{AtomicU64, Ordering};
use stm_transactions::box_rule::BoxRule;
use stm_transactions::pass::Pass;
use stm_transactions::rule::TransactionRule;
use tatp_model::request::Request;

/// How many requests a worker serves between two turns that it takes unasked.
const REQUESTS_A_TURN: usize = 8;

/// How many turns a worker that has no request takes for the others at most.
const TURNS: u32 = u32::MAX;

/// How often it looks, behind a turn, whether the others have ended. For so long they find the turn free.
const LOOKS: u32 = 256;

/// How often it looks where the turn made nothing durable, since each turn tells a number.
const IDLE_LOOKS: u32 = 4096;

impl<
    'a,
    S,
    X,
    K,
    P: TransactionRule<S, X, K> + BoxRule<S, X, K>,
    T: Turns<S, X, K, P>,
    G: Gate,
> Work<'a, S, X, K, P, T, G> {
    /// Serves the requests of a file in their order. Where one isn't served, that one and those behind it are left, and no
    /// further call is made. After every eighth request it takes a turn. Where the last file has no request, its worker takes turns
    /// for the others, until all have ended. Replies are sent as the lane takes them, and at the end the count of ended workers
    /// rises.
    pub fn work(&self, requests: &[Request], ended: &AtomicU64, job: &mut Job<X>)
        requires may { MayServeRequests self.now requests.now }
        requires fresh { IsNew self.now requests.now job.old }
        requires sent { SendsFirst job.old }
        ensures place { KeepsPlace job.old job.new }
        ensures worked { IsOver self.now requests.now job.new }
        ensures lane { IsSameLane job.old.outbox job.new.outbox }
        ensures sent { SendsFirst job.new }
    {
        job.end = match self.serve_all(requests, ended, job) {
            Ok(()) => WorkEnd::Whole,
            Err(end) => end,
        };
        job.send();
        let _before = ended.fetch_add(1, Ordering::SeqCst);
    }

    // Serves the requests up to the first one that isn't served; where the last file has none, takes turns for the others.
    fn serve_all(
        &self,
        requests: &[Request],
        ended: &AtomicU64,
        job: &mut Job<X>,
    ) -> Result<(), WorkEnd>
        requires may { MayServeRequests self.now requests.now }
        requires fresh { IsNew self.now requests.now job.old }
        requires sent { SendsFirst job.old }
        ensures place { KeepsPlace job.old job.new }
        ensures lane { IsSameLane job.old.outbox job.new.outbox }
        ensures sent { SendsFirst job.new }
        ensures ok { OnOk result
            (IsServedTo self.now requests.now (length requests.now) job.new) }
        ensures err { IfErr result (λ end. EndsSo self.now requests.now end job.new) }
    {
        if requests.is_empty() && self.is_last(job.file) {
            return self.take_turns(requests, ended, job);
        }
        for index in 0..requests.len() {
            self.serve_next(requests, index, job)?;
            job.send();
            self.take_turn_after(index + 1, &mut job.pass)?;
        }
        Ok(())
    }

    // Whether it is the last file.
    fn is_last(&self, file: u64) -> bool {
        self.files.len() as u64 == file.saturating_add(1)
    }

    // Serves the request at this index.
    fn serve_next(
        &self,
        requests: &[Request],
        index: usize,
        job: &mut Job<X>,
    ) -> Result<(), WorkEnd>
        requires may { MayServeRequests self.now requests.now }
        requires at { IsServedTo self.now requests.now index job.old }
        requires there { index < length requests.now }
        ensures place { KeepsPlace job.old job.new }
        ensures outbox { job.new.outbox ≡ job.old.outbox }
        ensures behind { DoesMore job.old job.new }
        ensures ok { OnOk result (IsServedTo self.now requests.now (index + 1) job.new) }
        ensures err { IfErr result (λ end. EndsSo self.now requests.now end job.new) }
    {
        let request = &requests[index];
        let done = serve_one(
            self.stm,
            self.turns,
            &mut job.pass,
            self.lay,
            job.file,
            index as u64,
            request,
            self.gate,
        )?;
        job.done.push_reserved(done);
        Ok(())
    }

    // After every eighth request it takes a turn. That another has the turn is nothing.
    fn take_turn_after(&self, count: usize, p: &mut Pass<X>) -> Result<(), WorkEnd>
        requires { IsResting (work_table self.now) p.old }
        ensures ok { OnOk result (HasTurned (work_table self.now) p.old p.new) }
        ensures err { IfErr result (λ end.
            (end ≡ DeviceEnd) × HasFailed (work_table self.now) p.old p.new) }
    {
        if count % REQUESTS_A_TURN != 0 {
            return Ok(());
        }
        self.take_turn(p)
    }

    // Takes a turn. That another has the turn is nothing.
    fn take_turn(&self, p: &mut Pass<X>) -> Result<(), WorkEnd>
        requires { IsResting (work_table self.now) p.old }
        ensures ok { OnOk result (HasTurned (work_table self.now) p.old p.new) }
        ensures err { IfErr result (λ end.
            (end ≡ DeviceEnd) × HasFailed (work_table self.now) p.old p.new) }
    {
        match self.turns.pump(self.stm, p) {
            Ok(_) => Ok(()),
            Err(TurnFault::Refused) => Ok(()),
            Err(TurnFault::Fault) => Err(WorkEnd::Device),
        }
    }

    // Takes turns until all workers that have requests have ended.
    fn take_turns(
        &self,
        requests: &[Request],
        ended: &AtomicU64,
        job: &mut Job<X>,
    ) -> Result<(), WorkEnd>
        requires at { IsServedTo self.now requests.now 0 job.old }
        requires sent { SendsFirst job.old }
        ensures place { KeepsPlace job.old job.new }
        ensures lane { IsSameLane job.old.outbox job.new.outbox }
        ensures sent { SendsFirst job.new }
        ensures ok { OnOk result (IsServedTo self.now requests.now 0 job.new) }
        ensures err { IfErr result (λ end. EndsSo self.now requests.now end job.new) }
    {
        let busy = count_busy(self.files);
        for _round in 0..TURNS {
            let before = job.pass.durable();
            self.take_turn(&mut job.pass)?;
            let is_idle = job.pass.durable() == before;
            if have_ended(ended, busy, if is_idle { IDLE_LOOKS } else { LOOKS }) {
                return Ok(());
            }
        }
        Ok(())
    }
}

// How many files have requests.
fn count_busy(files: &[Vec<Request>]) -> u64 {
    files.iter().filter(|requests| !requests.is_empty()).count() as u64
}

// Whether so many workers have ended, after so many looks at most.
fn have_ended(ended: &AtomicU64, workers: u64, looks: u32) -> bool {
    for _look in 0..looks {
        if ended.load(Ordering::SeqCst) >= workers {
            return true;
        }
    }
    false
}
