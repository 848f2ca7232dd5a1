//! Images that a crash leaves, replayed by a scan of their rings and by the slow replay.

use crate::records::{WORDS, apply, say_bundle, small_sizes};
use crate::say::{say_scan_fault, say_words};
use dude_base::bundle::Bundle;
use dude_base::place::Place;
use log_ring::{ScanFault, scan};
use pmem_fake::MemPmem;
use pmem_trait::Medium;
use script_words::{Replay, recover};
use std::alloc::{AllocError, Global};
use std::io;

/// The first home word of the small image.
const FIRST_HOME: usize = 272;

/// Prints what the slow replay makes of the image that a crash leaves now, where each word takes its settled value.
pub fn say_replay(rt: HostRuntime, medium: &MemPmem) -> io::Result<()> {
    let image = medium.crash(rt.alloc(), &[])?;
    say_replayed(rt, &recover(rt.alloc(), &image)?)
}

/// Prints what a replay gave.
fn say_replayed(rt: HostRuntime, replay: &Replay) -> io::Result<()> {
    match replay {
        Replay::Recovered { number, home } => {
            println!(rt; "recovers to {number}")?;
            say_words(rt, home)
        }
        Replay::Unformatted => rt.println("Unformatted"),
        Replay::Damaged { line } => println!(rt; "Damaged {{ line: {line} }}"),
    }
}

/// The bundles over a number of the small image on a medium. A medium that is too short fails.
fn bundles_over(alloc: Global, medium: &mut MemPmem, above: u64) -> Result<Vec<Bundle>, ScanFault> {
    let Some(sizes) = small_sizes() else {
        return Err(ScanFault::Device);
    };
    let place = Place::of(&sizes);
    if medium.len() < place.words() {
        return Err(ScanFault::Device);
    }
    scan(alloc, medium, &place, above)
}

/// Prints the bundles over a number.
pub fn say_scan(rt: HostRuntime, medium: &mut MemPmem, above: u64) -> io::Result<()> {
    match bundles_over(rt.alloc(), medium, above) {
        Ok(bundles) => {
            for bundle in &bundles {
                say_bundle(rt, bundle)?;
            }
            Ok(())
        }
        Err(fault) => say_scan_fault(rt, fault),
    }
}

/// Prints of how many images at all moments, of settled values and of first later ones, a scan gives the slow replay.
pub fn say_moments(rt: HostRuntime, medium: &MemPmem) -> io::Result<()> {
    let moments = u128::from(medium.now()) + 1;
    let mut agree = 0_u64;
    for moment in 0..=medium.now() {
        let settled = agrees_at(rt.alloc(), medium, moment, &[])?;
        let later = agrees_at(rt.alloc(), medium, moment, &[1; WORDS])?;
        agree = agree.saturating_add(u64::from(settled));
        agree = agree.saturating_add(u64::from(later));
    }
    println!(rt; "{moments} moments, {agree} images agree with the slow replay")
}

/// Whether a scan gives the image of these values at a moment as the slow replay does.
fn agrees_at(
    alloc: Global,
    medium: &MemPmem,
    moment: u64,
    picks: &[u64],
) -> Result<bool, AllocError> {
    match medium.images_at(alloc, moment, picks) {
        Ok(image) => agrees(alloc, &image),
        Err(_) => Ok(false),
    }
}

/// Whether a scan over its mark replays an image as the slow replay does.
fn agrees(alloc: Global, image: &[u64]) -> Result<bool, AllocError> {
    let replay = recover(alloc, image)?;
    let mark = image.get(8).copied().unwrap_or(0);
    match scanned(alloc, image, mark)? {
        Ok(bundles) => is_recovered(alloc, image, mark, &bundles, &replay),
        Err(fault) => Ok(is_damaged(&replay, fault)),
    }
}

/// The bundles over the mark in an image.
fn scanned(
    alloc: Global,
    image: &[u64],
    mark: u64,
) -> Result<Result<Vec<Bundle>, ScanFault>, AllocError> {
    let mut medium = MemPmem::new(alloc, image.to_vec(alloc)?, 1_000, Vec::new(alloc))?;
    Ok(bundles_over(alloc, &mut medium, mark))
}

/// Whether a replay recovers to the last of the bundles over the mark, and to the home after them.
fn is_recovered(
    alloc: Global,
    image: &[u64],
    mark: u64,
    bundles: &[Bundle],
    replay: &Replay,
) -> Result<bool, AllocError> {
    let Replay::Recovered { number, home } = replay else {
        return Ok(false);
    };
    let mut own = image.get(FIRST_HOME..).unwrap_or_default().to_vec(alloc)?;
    Ok(apply_all(bundles, mark, &mut own) == *number && home == &own)
}

/// Whether a replay finds the damage that a scan found.
fn is_damaged(replay: &Replay, fault: ScanFault) -> bool {
    match replay {
        Replay::Damaged { line } => fault == ScanFault::Damaged { line: *line },
        _ => false,
    }
}

/// Overwrites the home by the bundles that follow one another over the mark, and answers the last number.
fn apply_all(bundles: &[Bundle], mark: u64, home: &mut [u64]) -> u64 {
    let mut number = mark;
    for bundle in bundles {
        number = apply_next(bundle, number, home);
    }
    number
}

/// Overwrites the home by a bundle that follows a number, and answers its last number; or that number.
fn apply_next(bundle: &Bundle, number: u64, home: &mut [u64]) -> u64 {
    if bundle.first() != number.saturating_add(1) {
        return number;
    }
    apply(bundle, home);
    bundle.last()
}
