//! Threads run transactions on the same tables in memory, and what they answer is compared with what one thread answers.
//!
//! `transaction_trial SUBSCRIBERS THREADS REQUESTS SEED LOCKS apart|shared` gives each thread so many random requests, on
//! subscribers of its own or on those of all. It prints whether all replies are those of one thread. On standard error it
//! prints, with tabs between, the microseconds of the threads, the requests, and how often a number was void, a try refused, a
//! snapshot extended and a box found full. `read SUBSCRIBERS` in front of this has two threads read all words of the tables of so
//! many subscribers first, and prints what each of them read.
#![tactic(auto)]

mod checking;
mod command;
mod counts;
mod job;
mod joining;
mod loads;
mod place;
mod reading;
mod settings;
mod small;
mod turn;
mod working;

ghost use Rattle.std.specs.Prelude.{All, IfSome};
ghost use Rattle.transaction_trial.specs.Fit.{IsFit, IsReady};

use crate::checking::is_one_thread;
use crate::command::{Command, read_command};
use crate::counts::Counts;
use crate::job::Job;
use crate::joining::drawn_by;
use crate::place::{Place, open_place, split_jobs};
use crate::reading::read_tables;
use crate::settings::Settings;
use crate::working::work;
use std::alloc::Global;
use std::process::ExitCode;
use std::thread::Threads;
use std::time::{Duration, Instant};
use std::{env, thread};

fn main(rt: HostRuntime) -> ExitCode {
    let Some(command) = command_of(&rt) else {
        return refuse(
            rt,
            "transaction_trial [read SUBSCRIBERS] SUBSCRIBERS THREADS REQUESTS SEED LOCKS apart|shared",
        );
    };
    if let Some(subscribers) = command.read {
        let Some((one, other)) = read_tables(&rt, rt.alloc(), subscribers) else {
            return refuse(rt, "no such tables");
        };
        say_words(rt, 0, &one);
        say_words(rt, 1, &other);
    }
    let Some((place, mut jobs)) = prepare(rt.alloc(), &command.trial) else {
        return refuse(rt, "no such trial");
    };
    let Ok(start) = Instant::now(&rt) else {
        return ExitCode::from(1);
    };
    run_jobs(&rt, &place, &mut jobs);
    let Ok(time) = start.elapsed(&rt) else {
        return ExitCode::from(1);
    };
    let counts = Counts::of_all(&jobs);
    let one = are_as_one(rt.alloc(), &place, jobs, &counts);
    say_trial(rt, command.trial.threads, time, &counts, one);
    ExitCode::from(if one { 0 } else { 1 })
}

/// What the command line asks for.
fn command_of(rt: &HostRuntime) -> Option<Command> {
    let arguments = env::args(rt).ok()?;
    let mut words = Vec::new(rt.alloc());
    for argument in arguments.skip(1) {
        words.push(argument).ok()?;
    }
    read_command(&words)
}

/// Prints why nothing is done, and gives the status for it.
fn refuse(rt: HostRuntime, why: &str) -> ExitCode {
    let _ = eprint!(rt; "{why}\n");
    ExitCode::from(2)
}

/// Prints what a pass read, eight words a line.
fn say_words(rt: HostRuntime, pass: u64, words: &[u64]) {
    let _ = print!(rt; "{} words, read by pass {pass}\n", words.len());
    for (line, eight) in words.chunks(8).enumerate() {
        let _ = print!(rt; "{}:", line.wrapping_mul(8));
        for word in eight {
            let _ = print!(rt; " {word}");
        }
        let _ = print!(rt; "\n");
    }
}

/// Prints what came of a trial.
fn say_trial(rt: HostRuntime, threads: u64, time: Duration, counts: &Counts, one: bool) {
    let said = if one {
        "as one thread"
    } else {
        "not as one thread"
    };
    let _ = print!(rt; "{threads} threads, {} requests: {said}\n", counts.done);
    let _ = eprint!(rt;
        "{}\t{}\t{}\t{}\t{}\t{}\n",
        time.as_micros(),
        counts.done,
        counts.void,
        counts.refused,
        counts.extended,
        counts.full
    );
}

/// The tables, and a job for each thread.
fn prepare(alloc: Global, settings: &Settings) -> Option<(Place, Vec<Job>)>
    ensures { IfSome result (λ r. IsReady r.0 × All (IsFit r.0.stm.events) r.1.items) }
{
    let (place, pass) = open_place(
        alloc,
        settings.subscribers,
        settings.threads,
        settings.locks,
    )?;
    let jobs = split_jobs(alloc, &place, pass, settings)?;
    Some((place, jobs))
}

/// Does each job in a thread of its own.
fn run_jobs<R: Threads + Sync>(rt: &R, place: &Place, jobs: &mut [Job])
    requires ready { IsReady place.now }
    requires fit { All (IsFit place.now.stm.events) jobs.old }
    ensures { All (IsFit place.now.stm.events) jobs.new }
{
    let threads = jobs.len().max(1);
    thread::for_each_mut(rt, jobs, threads, &|_, job: &mut Job| work(place, job));
}

/// Whether the replies are those of one thread, and as many numbers were drawn as the jobs count.
fn are_as_one(alloc: Global, place: &Place, jobs: Vec<Job>, counts: &Counts) -> bool
    requires ready { IsReady place.now }
    requires fit { All (IsFit place.now.stm.events) jobs.items }
{
    is_one_thread(alloc, place, &jobs) && drawn_by(place, jobs) == Some(counts.drawn())
}
