//! A job for each file is made, with a pass of its own.

ghost use Rattle.dude_base.specs.declared.limits.TheConstants.{MAX_NUMBER};
ghost use Rattle.run_workers.specs.Jobs.{HasRoom, request_count};
ghost use Rattle.run_workers.specs.Partings.{AreShared, HasParted, HasTakenBack, IsNewcomer, IsPartOf};
ghost use Rattle.run_workers.specs.Work.{AreNew, CameBack, MaySplit, work_files, work_table};
ghost use Rattle.std.specs.Prelude.{◌≡◌, ◌*◌, ◌≤◌, [], IfErr, IfOk, IfSome, IfNone, OnSome, length, map, All, vec_capacity};
ghost use Rattle.stm_transactions.specs.Passes.{IsResting};

use crate::job::Job;
use crate::jobs::Jobs;
use crate::no_memory::NoMemory;
use crate::work::Work;
use crate::work_end::WorkEnd;
use std::alloc::Global;
use stm_transactions::pass::Pass;
use stm_transactions::rule::{TransactionRule, let_transact};
use tatp_model::request::Request;

/// The numbers that a worker may draw for a request: one for each try that conflicts, and the last one.
const DRAWS: u64 = 65;

impl<'a, S, X, K, P: TransactionRule<S, X, K>, T, G> Work<'a, S, X, K, P, T, G> {
    /// Makes a job for each file. That of file 0 has the pass, those of the others a pass that is split off it. All memory for
    /// what the workers will do is taken here: the list of file 0 has room for the requests of all files, so that what the
    /// others did can be put behind its own.
    pub fn make_jobs(&self, pass: Pass<X>) -> Result<Jobs<X>, NoMemory<X>>
        requires { MaySplit self.now pass }
        ensures ok { IfOk result (λ jobs. AreNew self.now jobs.each.items) }
        ensures room { IfOk result (HasRoom (work_files self.now)) }
        ensures none { IfOk result (λ jobs. All (λ job. job.outbox ≡ None) jobs.each.items) }
        ensures err { IfErr result (λ e. CameBack self.now pass e.pass) }
    {
        let files = self.files;
        let Some(mut jobs) = room_for_all(self.alloc, files.len()) else {
            return Err(NoMemory { pass });
        };
        let Some(done) = room_for(self.alloc, count_requests(files)) else {
            return Err(NoMemory { pass });
        };
        let mut first = pass;
        let Some(()) = self.split_jobs(&mut first, &mut jobs.each) else {
            let pass = self.take_back(first, jobs.each);
            return Err(NoMemory { pass });
        };
        let job = Job {
            file: 0,
            pass: first,
            done,
            end: WorkEnd::SetAside,
            outbox: None,
            apart: [0; 16],
        };
        let Ok(()) = jobs.each.insert(0, job) else {
            unreachable!()
        };
        Ok(jobs)
    }

    // Makes the jobs of all files but the first one, as far as there is memory.
    fn split_jobs(&self, first: &mut Pass<X>, jobs: &mut Vec<Job<X>>) -> Option<()>
        requires may { MaySplit self.now first.old }
        requires none { jobs.old.items ≡ [] }
        requires room { length self.now.files.now ≤ vec_capacity jobs.old }
        ensures parted { HasParted (work_table self.now) first.old first.new jobs.new.items }
        ensures shared { OnSome result (AreShared (work_table self.now) (work_files self.now)
            (length self.now.files.now) first.new jobs.new.items) }
        ensures none { All (λ job. job.outbox ≡ None) jobs.new.items }
        ensures capacity { vec_capacity jobs.new ≡ vec_capacity jobs.old }
    {
        let files = self.files;
        for file in 1..files.len() {
            let job = self.split_job(file as u64, &files[file], first)?;
            jobs.push_reserved(job);
        }
        Some(())
    }

    // Makes the job of a file, with a pass that is split off this one.
    fn split_job(&self, file: u64, requests: &[Request], first: &mut Pass<X>) -> Option<Job<X>>
        requires rests { IsResting (work_table self.now) first.old }
        requires draws { 65 * length requests.now ≤ first.old.numbers.left }
        ensures some { IfSome result
            (IsPartOf (work_table self.now) file requests.now first.old first.new) }
        ensures outbox { IfSome result (λ job. job.outbox ≡ None) }
        ensures none { IfNone result (first.new ≡ first.old) }
    {
        let_transact(self.stm);
        let done = room_for(self.alloc, requests.len())?;
        let pass = first
            .split(self.stm, self.alloc, DRAWS * requests.len() as u64)
            .ok()?;
        Some(Job {
            file,
            pass,
            done,
            end: WorkEnd::SetAside,
            outbox: None,
            apart: [0; 16],
        })
    }

    // The passes of these jobs come back.
    fn take_back(&self, first: Pass<X>, mut jobs: Vec<Job<X>>) -> Pass<X>
        requires rests { IsResting (work_table self.now) first }
        requires from { (work_table self.now).setup.first ≤ first.numbers.durable }
        requires newcomers { All (λ job. IsNewcomer (work_table self.now) job.pass) jobs.items }
        ensures { HasTakenBack (work_table self.now) jobs.items first result }
    {
        let_transact(self.stm);
        let mut pass = first;
        while let Some(job) = jobs.pop() {
            pass.join(self.stm, job.pass);
        }
        pass
    }
}

// A list with room for so many.
fn room_for<T: Drop>(alloc: Global, count: usize) -> Option<Vec<T>>
    ensures none { IfSome result (λ v. v.items ≡ []) }
    ensures room { IfSome result (λ v. count ≤ vec_capacity v) }
{
    let mut list = Vec::new(alloc);
    list.reserve_exact(count).ok()?;
    Some(list)
}

// No job yet, and room for so many, and for a number for each.
fn room_for_all<X>(alloc: Global, count: usize) -> Option<Jobs<X>>
    ensures none { IfSome result (λ jobs. jobs.each.items ≡ []) }
    ensures jobs { IfSome result (λ jobs. count ≤ vec_capacity jobs.each) }
    ensures no_count { IfSome result (λ jobs. jobs.counts.items ≡ []) }
    ensures counts { IfSome result (λ jobs. count ≤ vec_capacity jobs.counts) }
{
    let each = room_for(alloc, count)?;
    let counts = room_for(alloc, count)?;
    Some(Jobs { each, counts })
}

// How many requests there are in all.
fn count_requests(files: &[Vec<Request>]) -> usize
    requires { request_count (map (λ f. f.items) files.now) ≤ MAX_NUMBER }
    ensures { result ≡ request_count (map (λ f. f.items) files.now) }
{
    let mut count = 0;
    for requests in files {
        count += requests.len();
    }
    count
}
