//! Images in memory: made, opened, and recovered.

ghost use Rattle.pmem_fake.specs.Fakes.{sight};
ghost use Rattle.pmem_trait.specs.Sights.{IsAtRest};
ghost use Rattle.std.specs.Prelude.{IfOk, IfSome};
ghost use Rattle.stm_runs.specs.Untold.{IsUntold};
ghost use Rattle.tiny_stm.specs.Started.{IsAtRest as MayRun};

use crate::settings::{Failing, NONE};
use dude_base::place::Place;
use dude_base::sizes::Sizes;
use dude_recover::{Opened, format, open};
use image_recovery::image_of;
use pmem_fake::MemPmem;
use pmem_trait::Medium;
use script_words::recovers_to;
use std::alloc::{AllocError, Global};

/// How many calls on a medium are remembered.
const BUDGET: u64 = 100_000;

/// A medium that is settled at an image, of which a call fails.
fn medium_of(alloc: Global, image: &[u64], failing: Failing) -> Result<MemPmem, AllocError>
    ensures rest { IfOk result (λ medium. IsAtRest (sight medium)) }
    ensures untold { IfOk result (λ medium. IsUntold (sight medium)) }
{
    let words = image.to_vec(alloc)?;
    let fail = vec![in alloc; failing.call]?;
    let medium = if failing.late {
        MemPmem::late(alloc, words, BUDGET, fail)?
    } else {
        MemPmem::new(alloc, words, BUDGET, fail)?
    };
    Ok(medium)
}

/// The words of a new image of these sizes, where there are such.
pub fn new_image(alloc: Global, sizes: &Sizes) -> Option<Vec<u64>> {
    if sizes.check().is_err() {
        return None;
    }
    let empty = vec![in alloc; 0; Place::of(sizes).words() as usize].ok()?;
    let medium = medium_of(alloc, &empty, NONE).ok()?;
    let medium = format(alloc, medium, sizes).ok()?;
    medium.content().to_vec(alloc).ok()
}

/// An image, opened on a medium of which a call fails, counted from the first one of the opening.
pub fn opened(alloc: Global, image: &[u64], failing: Failing) -> Option<Opened<MemPmem>>
    ensures { IfSome result (λ o. MayRun o.back o.words.items o.number) }
{
    let Ok(medium) = medium_of(alloc, image, failing) else {
        return None;
    };
    match open(alloc, medium) {
        Ok(opened) => Some(opened),
        Err(_) => None,
    }
}

/// How many calls the opening of an image makes.
pub fn calls_of_opening(alloc: Global, image: &[u64]) -> Option<u64> {
    let opened = opened(alloc, image, NONE)?;
    Some(opened.back.into_medium().now())
}

/// The number and the home to which the slow replay and the product recover an image; nothing where they don't agree.
fn recovered(alloc: Global, image: &[u64]) -> Option<(u64, Vec<u64>)> {
    let found = image_of(alloc, image).ok()?;
    recovers_to(alloc, image, found.number, &found.words)
}

/// The number and the home to which the image of a moment recovers: each word has its settled value, or the one first put since.
pub fn crashed(
    alloc: Global,
    medium: &MemPmem,
    moment: u64,
    later: bool,
) -> Option<(u64, Vec<u64>)> {
    let picks = vec![in alloc; u64::from(later); medium.content().len()].ok()?;
    let image = medium.images_at(alloc, moment, &picks).ok()?;
    recovered(alloc, &image)
}
