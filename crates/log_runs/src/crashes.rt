//! Runs of a back in which a call on the medium fails: it is dead from then on, and each image recovers.

use crate::records::{WORDS, apply, record_of};
use crate::trial::{Step, Trial};
use back_store::BackFault;
use dude_base::bundle::Bundle;
use pmem_fake::MemPmem;
use pmem_trait::Medium;
use script_words::{Replay, recover};
use std::alloc::{AllocError, Global};
use std::io;

/// Carries out the steps anew for each of so many calls, which fails early and then late, and prints how many of these runs
/// went well.
pub fn say_failures(rt: HostRuntime, words: &[u64], steps: &[Step], calls: u64) -> io::Result<()> {
    let mut well = 0_u64;
    for call in 1..=calls {
        for late in [false, true] {
            let medium = medium_of(rt.alloc(), words, late, 2_000, &[call])?;
            if goes_well(rt.alloc(), medium, steps, call)? {
                well = well.saturating_add(1);
            }
        }
    }
    println!(rt; "{well} runs end at the failed call, stay dead and leave images that recover")
}

/// A medium in memory with these words, of which calls over a budget fail, and those of these counts.
pub fn medium_of(
    alloc: Global,
    words: &[u64],
    late: bool,
    budget: u64,
    fail: &[u64],
) -> Result<MemPmem, AllocError> {
    let words = words.to_vec(alloc)?;
    let fail = fail.to_vec(alloc)?;
    let budget = budget.min(10_000_000);
    if late {
        MemPmem::late(alloc, words, budget, fail)
    } else {
        MemPmem::new(alloc, words, budget, fail)
    }
}

/// Whether the steps end at the failed call, the back does nothing more, and each image recovers.
fn goes_well(
    alloc: Global,
    medium: MemPmem,
    steps: &[Step],
    call: u64,
) -> Result<bool, AllocError> {
    let Some(mut trial) = Trial::new(alloc, medium) else {
        return Ok(false);
    };
    let dies = dies(&mut trial, steps)?;
    let numbers = (trial.back.durable(), trial.last_number());
    let medium = trial.into_medium();
    let survives = survives_twice(alloc, &medium, steps, numbers)?;
    Ok(dies & survives & (medium.now() == call) & (medium.faults() == 1))
}

/// Whether the steps end at a failed call, and the back does nothing more.
fn dies(trial: &mut Trial, steps: &[Step]) -> Result<bool, AllocError> {
    let ends = first_fault(trial, steps)? == Some(Err(BackFault::Device));
    Ok(ends & stays_dead(trial)?)
}

/// The first answer that is none or a fault; none where each step was done.
fn first_fault(
    trial: &mut Trial,
    steps: &[Step],
) -> Result<Option<Result<u64, BackFault>>, AllocError> {
    for k in 0..steps.len() {
        let answer = trial.take(&steps[k])?;
        if !matches!(answer, Some(Ok(_))) {
            return Ok(answer);
        }
    }
    Ok(None)
}

/// Whether the back is dead, and each call answers that.
fn stays_dead(trial: &mut Trial) -> Result<bool, AllocError> {
    let Ok(redo) = record_of(9, &[(5, 90), (576, 109)]) else {
        return Ok(false);
    };
    let announced = answers_dead(trial, &Step::Announce)?;
    let reproduced = answers_dead(trial, &Step::Reproduce(9))?;
    let persisted = answers_dead(trial, &Step::Persist(0, Bundle::one(&redo)))?;
    let read = matches!(trial.page(0), Err(BackFault::Dead));
    Ok(trial.back.is_dead() & announced & reproduced & persisted & read)
}

/// Whether a step is answered by that the back is dead.
fn answers_dead(trial: &mut Trial, step: &Step) -> Result<bool, AllocError> {
    Ok(matches!(trial.take(step)?, Some(Err(BackFault::Dead))))
}

/// Whether a crash now leaves images that recover, one of the settled values and one of first later ones.
fn survives_twice(
    alloc: Global,
    medium: &MemPmem,
    steps: &[Step],
    numbers: (u64, u64),
) -> Result<bool, AllocError> {
    let early = survives(alloc, medium, &[], steps, numbers)?;
    let late = survives(alloc, medium, &[1; WORDS], steps, numbers)?;
    Ok(early & late)
}

/// Whether a crash now leaves an image that recovers.
fn survives(
    alloc: Global,
    medium: &MemPmem,
    picks: &[u64],
    steps: &[Step],
    numbers: (u64, u64),
) -> Result<bool, AllocError> {
    let image = medium.crash(alloc, picks)?;
    match recover(alloc, &image)? {
        Replay::Recovered { number, home } => is_wanted(alloc, steps, numbers, number, &home),
        _ => Ok(false),
    }
}

/// Whether an image recovers to a number from the first of these to the second, and to the home after the bundles up to it.
fn is_wanted(
    alloc: Global,
    steps: &[Step],
    (least, most): (u64, u64),
    number: u64,
    home: &[u64],
) -> Result<bool, AllocError> {
    let mut wanted = vec![in alloc; 0; home.len()]?;
    for step in steps {
        apply_step(step, number, &mut wanted);
    }
    Ok(least <= number && number <= most && home == wanted.as_slice())
}

/// Overwrites the home by the bundle of a step, where it persists one of numbers up to this one.
fn apply_step(step: &Step, number: u64, home: &mut [u64]) {
    if let Step::Persist(_, bundle) = step
        && bundle.last() <= number
    {
        apply(bundle, home);
    }
}
