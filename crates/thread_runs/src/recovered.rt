//! To what an image recovers that a crash leaves.

use image_recovery::image_of;
use pmem_fake::MemPmem;
use pmem_trait::Medium;
use script_words::recovers_to;
use std::alloc::Global;

/// The number and the home to which the image recovers that a crash leaves now, where each word has its settled value, or the one
/// first put since. There is nothing where the slow replay and the product don't agree.
pub fn crashed(alloc: Global, medium: &MemPmem, later: bool) -> Option<(u64, Vec<u64>)> {
    let picks = vec![in alloc; u64::from(later); medium.content().len()].ok()?;
    let image = medium.images_at(alloc, medium.now(), &picks).ok()?;
    let found = image_of(alloc, &image).ok()?;
    recovers_to(alloc, &image, found.number, &found.words)
}
