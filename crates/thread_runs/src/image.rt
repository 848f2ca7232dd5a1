//! A new image in memory, opened.

ghost use Rattle.dude_recover.specs.Opened.{IsOpened};
ghost use Rattle.run_threads.specs.Ends.{IsAsOpened};
ghost use Rattle.std.specs.Prelude.{◌≡◌, IfSome};

use command_openings::make_and_open;
use dude_base::place::Place;
use dude_base::sizes::Sizes;
use dude_recover::Opened;
use pmem_fake::MemPmem;
use std::alloc::Global;

/// How many calls on a medium are remembered.
const BUDGET: u64 = 100_000;

/// A new image of these sizes, made on a medium in memory and opened, where there is such an image.
pub fn new_image(alloc: Global, sizes: &Sizes) -> Option<Opened<MemPmem>>
    ensures opened { IfSome result IsOpened }
    ensures held { IfSome result IsAsOpened }
    ensures number { IfSome result (λ o. o.number ≡ 0) }
{
    if sizes.check().is_err() {
        return None;
    }
    let Ok(words) = vec![in alloc; 0; Place::of(sizes).words() as usize] else {
        return None;
    };
    let Ok(medium) = MemPmem::new(alloc, words, BUDGET, Vec::new(alloc)) else {
        return None;
    };
    match make_and_open(alloc, medium, sizes) {
        Ok(opened) => Some(opened),
        Err(_) => None,
    }
}
