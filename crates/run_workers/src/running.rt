//! The files are served in threads, with a printer beside them or without, from their jobs to what is done.

ghost use Rattle.run_workers.specs.Jobs.{HasRoom};
ghost use Rattle.run_workers.specs.Joined.{AreJoined};
ghost use Rattle.run_workers.specs.Printed.{IsPrinted};
ghost use Rattle.run_workers.specs.Streamed.{HasStreamed};
ghost use Rattle.run_workers.specs.Work.{AreOver, AreReady, CameBack, EachHasEnded, HasEnded, HasServedAll, HaveEnded};
ghost use Rattle.run_workers.specs.Work.{IsReady, MayServeAll, MaySplit, work_files, work_table};
ghost use Rattle.std.specs.Prelude.{◌≡◌, ◌<◌, length, All, IfErr, IfOk};
ghost use Rattle.std.specs.Thread.{IsSync};

use crate::comparing::compare_lanes;
use crate::counting::count_printed;
use crate::job::Job;
use crate::jobs::Jobs;
use crate::joined::Joined;
use crate::joining::join_jobs;
use crate::no_memory::NoMemory;
use crate::opened::Opened;
use crate::streamed_files::StreamedFiles;
use crate::work::Work;
use dude_io::Sink;
use dude_stream::{Outlet, PrintFault, print_lanes};
use request_attempts::gate::Gate;
use request_attempts::turns::Turns;
use std::sync::atomic::AtomicU64;
use std::thread;
use std::thread::{Threads, join_mut};
use stm_transactions::box_rule::BoxRule;
use stm_transactions::pass::Pass;
use stm_transactions::rule::TransactionRule;

impl<
    'a,
    S: Send,
    X,
    K,
    P: TransactionRule<S, X, K> + BoxRule<S, X, K> + Send,
    T: Turns<S, X, K, P> + Sync,
    G: Gate + Sync,
> Work<'a, S, X, K, P, T, G> {
    /// Serves each file in a thread of its own, with a pass that is split off this one, and joins them again.
    pub fn serve_files<R: Threads + Sync>(
        &self,
        rt: &R,
        pass: Pass<X>,
    ) -> Result<Joined<X>, NoMemory<X>>
        requires may { MayServeAll self.now }
        requires pass { MaySplit self.now pass }
        ensures ok { IfOk result (HasServedAll self.now) }
        ensures err { IfErr result (λ e. CameBack self.now pass e.pass) }
    {
        let mut jobs = self.make_jobs(pass)?;
        let ended = AtomicU64::new(0);
        self.run_jobs(rt, &ended, &mut jobs.each);
        Ok(self.join_served(jobs))
    }

    /// Serves each file in a thread of its own, while a printer hands the sink lines of the replies. What isn't printed when
    /// all workers have ended is left: of each file the replies behind the first so many.
    pub fn stream_files<R: Threads + Sync, O: Sink + Send>(
        &self,
        rt: &R,
        pass: Pass<X>,
        out: &mut O,
    ) -> Result<StreamedFiles<X>, NoMemory<X>>
        requires may { MayServeAll self.now }
        requires pass { MaySplit self.now pass }
        ensures served { IfOk result (λ r. HasServedAll self.now r.joined) }
        ensures printed { IfOk result (λ r.
            HasStreamed (length self.now.files.now) r.joined.done.items r.printed.items r.stopped
            (O.sight out.old) (O.sight out.new)) }
        ensures err { IfErr result (λ e. CameBack self.now pass e.pass) }
        ensures untouched { IfErr result (λ e. O.sight out.new ≡ O.sight out.old) }
    {
        let Opened {
            mut jobs,
            mut outlets,
            mut printed,
        } = self.open_all(pass)?;
        let each = jobs.each.as_mut_slice();
        let ends = outlets.as_mut_slice();
        let stopped = self.run_beside(rt, each, ends, out);
        count_printed(self.files, ends, &mut printed);
        compare_lanes(each, ends);
        Ok(StreamedFiles {
            joined: self.join_served(jobs),
            printed,
            stopped,
        })
    }

    // Joins jobs whose workers have ended.
    fn join_served(&self, jobs: Jobs<X>) -> Joined<X>
        requires some { 0 < length (work_files self.now) }
        requires worked { AreOver self.now jobs.each.items }
        requires room { HasRoom (work_files self.now) jobs }
        ensures joined { AreJoined (work_table self.now) jobs.each.items result }
        ensures served { HasServedAll self.now result }
    {
        join_jobs(self.stm, jobs)
    }

    // Does each job in a thread of its own, and prints in one more what the jobs send; why the printer stopped, if it did. Where
    // no thread can be made for it, it prints when all workers have ended.
    fn run_beside<R: Threads + Sync, O: Sink + Send>(
        &self,
        rt: &R,
        jobs: &mut [Job<X>],
        outlets: &mut [Outlet],
        out: &mut O,
    ) -> Option<PrintFault>
        requires ready { AreReady self.now jobs.old }
        ensures ended { HaveEnded self.now jobs.old jobs.new }
        ensures printed { IsPrinted result outlets.old outlets.new (O.sight out.old)
            (O.sight out.new) }
    {
        let ended = AtomicU64::new(0);
        let workers = jobs.len() as u64;
        let mut text = Vec::new(self.alloc);
        let (printed, ()) = join_mut(
            rt,
            &mut || print_lanes(outlets, &ended, workers, &mut text, out),
            &mut ||
                requires { IsSync R.row × AreReady self.now jobs.now }
                ensures { HaveEnded self.entry.now jobs.entry.now jobs.exit.now }
            { self.run_jobs(rt, &ended, jobs) },
        );
        printed.err()
    }

    /// Does each job in a thread of its own, and waits for all. The work of a thread that can't be started is done by the
    /// caller, that of the last job behind all others. The count of ended workers rises with each.
    pub fn run_jobs<R: Threads + Sync>(&self, rt: &R, ended: &AtomicU64, jobs: &mut [Job<X>])
        requires { AreReady self.now jobs.old }
        ensures { HaveEnded self.now jobs.old jobs.new }
    {
        self.run_beside_last(rt, ended, jobs);
    }

    // Does each job in a thread of its own. That of the last one is started first; where it can't be, it is done last.
    fn run_beside_last<R: Threads + Sync>(&self, rt: &R, ended: &AtomicU64, jobs: &mut [Job<X>])
        requires { All (IsReady self.now) jobs.old }
        ensures { EachHasEnded self.now jobs.old jobs.new }
    {
        let before = jobs.len().saturating_sub(1);
        if before == 0 {
            self.run_each(rt, ended, jobs);
            return;
        }
        let (others, last) = jobs.split_at_mut(before);
        self.run_both(rt, ended, others, last);
    }

    // Does the last jobs in threads that are started first, and the others in threads of theirs.
    fn run_both<R: Threads + Sync>(
        &self,
        rt: &R,
        ended: &AtomicU64,
        others: &mut [Job<X>],
        last: &mut [Job<X>],
    )
        requires others { All (IsReady self.now) others.old }
        requires last { All (IsReady self.now) last.old }
        ensures others { EachHasEnded self.now others.old others.new }
        ensures last { EachHasEnded self.now last.old last.new }
    {
        join_mut(
            rt,
            &mut ||
                requires { IsSync R.row × All (IsReady self.now) last.now }
                ensures { EachHasEnded self.entry.now last.entry.now last.exit.now }
            { self.run_each(rt, ended, last) },
            &mut ||
                requires { IsSync R.row × All (IsReady self.now) others.now }
                ensures { EachHasEnded self.entry.now others.entry.now others.exit.now }
            { self.run_each(rt, ended, others) },
        );
    }

    // Does each job in a thread of its own.
    fn run_each<R: Threads + Sync>(&self, rt: &R, ended: &AtomicU64, jobs: &mut [Job<X>])
        requires { All (IsReady self.now) jobs.old }
        ensures { EachHasEnded self.now jobs.old jobs.new }
    {
        let threads = jobs.len().max(1);
        thread::for_each_mut(
            rt,
            jobs,
            threads,
            &|_, job: &mut Job<X>|
                requires { IsReady self.now job.old }
                ensures { HasEnded self.entry.now job.old job.new }
            { self.work_on(ended, job) },
        );
    }

    // Serves the file of the job.
    fn work_on(&self, ended: &AtomicU64, job: &mut Job<X>)
        requires { IsReady self.now job.old }
        ensures { HasEnded self.now job.old job.new }
    {
        self.work(&self.files[job.file as usize], ended, job)
    }
}
