//! What is printed of passes, and of what they were answered.

use crate::outcome::{Answer, Ended, Outcome};
use std::io;
use stm_transactions::lost::Lost;
use stm_transactions::split_fault::SplitFault;
use stm_turns::{PumpFault, Pumped};
use tiny_stm::FetchFault;
use tiny_stm::stm::Pass;
use word_space::stop::Stop;

/// Prints how many words were read, and those that aren't 0; nothing where none was.
pub fn say_seen(rt: HostRuntime, seen: &[(u64, u64)]) -> io::Result<()> {
    let count = seen.len();
    if count == 0 {
        return Ok(());
    }
    print!(rt; "read {count}:")?;
    say_writes(rt, seen)
}

/// Prints values that aren't 0, each behind its place.
fn say_writes(rt: HostRuntime, pairs: &[(u64, u64)]) -> io::Result<()> {
    for &(at, value) in pairs {
        if value != 0 {
            print!(rt; " {at}={value}")?;
        }
    }
    rt.println("")
}

/// Prints what came of a move.
pub fn say_outcome(rt: HostRuntime, outcome: &Outcome) -> io::Result<()> {
    match outcome {
        Outcome::Split { left, new } => println!(rt; "split: {left} left, {new} left"),
        Outcome::NoSplit(fault) => say_split_fault(rt, *fault),
        Outcome::Joined => rt.println("joined"),
        Outcome::One(answer) => say_answer(rt, answer),
        Outcome::Around(answer, ended) => {
            if let Some(answer) = answer {
                rt.print("between: ")?;
                say_answer(rt, answer)?;
            }
            say_ended(rt, ended)
        }
        Outcome::Nothing => rt.println("nothing"),
    }
}

fn say_split_fault(rt: HostRuntime, fault: SplitFault) -> io::Result<()> {
    match fault {
        SplitFault::All { threads } => println!(rt; "All {{ threads: {threads} }}"),
        SplitFault::NoMemory => rt.println("NoMemory"),
    }
}

fn say_answer(rt: HostRuntime, answer: &Answer) -> io::Result<()> {
    match answer {
        Answer::Ended(ended) => say_ended(rt, ended),
        Answer::Pumped(pumped) => say_pumped(rt, pumped),
        Answer::Fetched(fetched) => say_fetched(rt, fetched),
        Answer::NoPage => rt.println("no such page"),
    }
}

fn say_ended(rt: HostRuntime, ended: &Ended) -> io::Result<()> {
    match ended {
        Ended::Done {
            number,
            wrote: true,
        } => println!(rt; "wrote at {number}"),
        Ended::Done { number, wrote: _ } => println!(rt; "only read at {number}"),
        Ended::Full(seen) => println!(rt; "BoxFull {{ seen: {seen} }}"),
        Ended::Stopped(stop) => say_stop(rt, *stop),
        Ended::Lost(lost) => say_lost(rt, *lost),
        Ended::NoDraw => rt.println("no draw is left"),
    }
}

fn say_stop(rt: HostRuntime, stop: Stop) -> io::Result<()> {
    rt.print("stopped: ")?;
    match stop {
        Stop::Conflict { lock, seen } => println!(rt; "Conflict {{ lock: {lock}, seen: {seen} }}"),
        Stop::Out { page } => println!(rt; "Out {{ page: {page} }}"),
        Stop::Busy { page, seen } => println!(rt; "Busy {{ page: {page}, seen: {seen} }}"),
        Stop::Wide => rt.println("Wide"),
        Stop::NoMemory => rt.println("NoMemory"),
    }
}

fn say_lost(rt: HostRuntime, lost: Lost) -> io::Result<()> {
    rt.print("lost: ")?;
    match lost {
        Lost::Out { page } => println!(rt; "Out {{ page: {page} }}"),
        Lost::Busy { page, seen } => println!(rt; "Busy {{ page: {page}, seen: {seen} }}"),
        Lost::Conflict { lock, seen, number } => {
            println!(rt; "Conflict {{ lock: {lock}, seen: {seen}, number: {number} }}")
        }
    }
}

fn say_pumped(rt: HostRuntime, pumped: &Result<Pumped, PumpFault>) -> io::Result<()> {
    match pumped {
        Ok(pumped) => {
            let (durable, reproduced) = (pumped.durable, pumped.reproduced);
            println!(rt; "Pumped {{ durable: {durable}, reproduced: {reproduced} }}")
        }
        Err(PumpFault::Held { seen }) => println!(rt; "Held {{ seen: {seen} }}"),
        Err(PumpFault::Device) => rt.println("Device"),
        Err(PumpFault::Dead) => rt.println("Dead"),
    }
}

fn say_fetched(rt: HostRuntime, fetched: &Result<(), FetchFault>) -> io::Result<()> {
    match fetched {
        Ok(()) => rt.println("fetched"),
        Err(FetchFault::Held { seen }) => println!(rt; "Held {{ seen: {seen} }}"),
        Err(FetchFault::Device) => rt.println("Device"),
        Err(FetchFault::Dead) => rt.println("Dead"),
        Err(FetchFault::Behind { touch, reproduced }) => {
            println!(rt; "Behind {{ touch: {touch}, reproduced: {reproduced} }}")
        }
        Err(FetchFault::AllPinned { page, seen }) => {
            println!(rt; "AllPinned {{ page: {page}, seen: {seen} }}")
        }
    }
}

/// Prints what a pass tells of itself.
pub fn say_pass(rt: HostRuntime, pass: &Pass) -> io::Result<()> {
    let (last, left, splits) = (pass.last(), pass.left(), pass.splits());
    let (durable, refused) = (pass.durable(), pass.refused());
    let met = if pass.met_fault() {
        "a fault"
    } else {
        "no fault"
    };
    println!(rt;
        "last {last}, left {left}, splits {splits}, durable {durable}, refused {refused}, {met}"
    )
}
