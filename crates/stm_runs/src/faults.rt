//! The same moves over a medium of which each call fails in turn.

use crate::images::opened;
use crate::judging::{Commits, told_by};
use crate::moves::Move;
use crate::outcome::{Answer, Outcome};
use crate::settings::{Failing, NONE, Settings};
use crate::stage::Stage;
use pmem_fake::MemPmem;
use pmem_trait::Medium;
use std::alloc::Global;
use std::io;
use stm_turns::PumpFault;
use tiny_stm::FetchFault;

/// What moves are made over: an image and its home, how many calls the opening makes, and what transactions are run with.
#[derive(Clone, Copy)]
pub struct Ground<'a> {
    pub image: &'a [u64],
    pub home: &'a [u64],
    pub opening: u64,
    pub settings: &'a Settings,
    pub moves: &'a [Move],
}

/// What moves left.
#[derive(Drop)]
struct Left {
    medium: MemPmem,
    commits: Commits,
    number: u64,
    is_dead: bool,
    /// How many turns were answered `Device`, and how many `Dead`.
    device: u64,
    dead: u64,
}

/// Makes the moves where this call fails.
fn left_by(alloc: Global, ground: &Ground, failing: Failing) -> Option<Left> {
    let failing = Failing {
        call: if failing.call == 0 {
            0
        } else {
            ground.opening.saturating_add(failing.call)
        },
        late: failing.late,
    };
    let opened = opened(alloc, ground.image, failing)?;
    let Ok(mut stage) = Stage::over(alloc, opened, ground.settings) else {
        return None;
    };
    let mut commits = Commits::new(alloc);
    let (mut device, mut dead) = (0_u64, 0_u64);
    for made in ground.moves {
        let mut seen = Vec::new(alloc);
        let outcome = stage.play(made, &mut seen);
        commits.add(made, &outcome).ok()?;
        let (device_more, dead_more) = faults_in(&outcome);
        device = device.saturating_add(device_more);
        dead = dead.saturating_add(dead_more);
    }
    let closed = stage.close();
    Some(Left {
        is_dead: closed.back.is_dead(),
        number: closed.number,
        medium: closed.back.into_medium(),
        commits,
        device,
        dead,
    })
}

/// How many turns of an outcome were answered `Device`, and how many `Dead`.
fn faults_in(outcome: &Outcome) -> (u64, u64) {
    match outcome {
        Outcome::One(answer) | Outcome::Around(Some(answer), _) => match answer {
            Answer::Pumped(Err(PumpFault::Device)) | Answer::Fetched(Err(FetchFault::Device)) => {
                (1, 0)
            }
            Answer::Pumped(Err(PumpFault::Dead)) | Answer::Fetched(Err(FetchFault::Dead)) => (0, 1),
            _ => (0, 0),
        },
        _ => (0, 0),
    }
}

/// What is left where a call fails.
#[derive(Clone, Copy, PartialEq, Eq)]
struct Failure {
    /// Whether that call was the last one.
    is_last: bool,
    is_dead: bool,
    device: u64,
    dead: u64,
    number: u64,
    told: u64,
    settled: Option<u64>,
    later: Option<u64>,
}

/// Prints what is left where a call fails, for each call early and then late: a line for calls in a row that leave the same.
pub fn say_failures(rt: HostRuntime, ground: &Ground) -> io::Result<()> {
    let Some(whole) = left_by(rt.alloc(), ground, NONE) else {
        return rt.println("nothing");
    };
    let calls = whole.medium.now().saturating_sub(ground.opening);
    println!(rt; "{calls} calls")?;
    for late in [false, true] {
        let mut before = None;
        for call in 1..=calls {
            let failure = failure_at(rt.alloc(), ground, Failing { call, late });
            if before != Some(failure) {
                let when = if late { "late" } else { "early" };
                print!(rt; "{when}, from call {call} on: ")?;
                say_failure(rt, failure)?;
            }
            before = Some(failure);
        }
    }
    Ok(())
}

/// What is left where this call fails; nothing where there was no memory.
fn failure_at(alloc: Global, ground: &Ground, failing: Failing) -> Option<Failure> {
    let left = left_by(alloc, ground, failing)?;
    let (home, medium, late) = (ground.home, &left.medium, failing.late);
    let now = medium.now();
    Some(Failure {
        is_last: now.saturating_sub(ground.opening) == failing.call,
        is_dead: left.is_dead,
        device: left.device,
        dead: left.dead,
        number: left.number,
        told: told_by(medium, now, late),
        settled: left.commits.judge(home, medium, now, false, late),
        later: left.commits.judge(home, medium, now, true, late),
    })
}

/// Prints what is left where a call fails.
fn say_failure(rt: HostRuntime, failure: Option<Failure>) -> io::Result<()> {
    let Some(failure) = failure else {
        return rt.println("nothing");
    };
    let last = if failure.is_last {
        "the last one"
    } else {
        "not the last one"
    };
    let state = if failure.is_dead { "dead" } else { "alive" };
    let (device, dead) = (failure.device, failure.dead);
    let (number, told) = (failure.number, failure.told);
    print!(rt; "{last}, {state}, Device {device}, Dead {dead}, number {number}, told {told},")?;
    say_judged(rt, failure.settled)?;
    say_judged(rt, failure.later)?;
    rt.println("")
}

/// Prints the number to which an image recovers.
fn say_judged(rt: HostRuntime, judged: Option<u64>) -> io::Result<()> {
    match judged {
        Some(number) => print!(rt; " {number}"),
        None => rt.print(" WRONG"),
    }
}

/// Prints to which numbers the two extreme images of each moment recover, a line for moments in a row with the same ones.
pub fn say_moments(rt: HostRuntime, ground: &Ground) -> io::Result<()> {
    let Some(left) = left_by(rt.alloc(), ground, NONE) else {
        return rt.println("nothing");
    };
    let mut before = None;
    for moment in ground.opening..=left.medium.now() {
        let told = told_by(&left.medium, moment, false);
        let settled = left
            .commits
            .judge(ground.home, &left.medium, moment, false, false);
        let later = left
            .commits
            .judge(ground.home, &left.medium, moment, true, false);
        if before != Some((told, settled, later)) {
            let call = moment.saturating_sub(ground.opening);
            print!(rt; "from call {call} on: told {told},")?;
            say_judged(rt, settled)?;
            say_judged(rt, later)?;
            rt.println("")?;
        }
        before = Some((told, settled, later));
    }
    Ok(())
}
