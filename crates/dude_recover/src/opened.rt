//! An image that can be run on.

use back_store::Back;
use dude_base::sizes::Sizes;
use pmem_trait::Medium;
use std::alloc::{AllocError, Global};
use tatp_layout::Layout;

/// An image that can be run on: the back of its store, where its tables stand, and its home in memory.
#[derive(Drop)]
pub struct Opened<M: Medium> {
    pub back: Back<M>,
    pub lay: Layout,
    pub sizes: Sizes,
    /// The words of the home.
    pub words: Vec<u64>,
    /// The number of the last transaction that the home has.
    pub number: u64,
}

impl<M: Medium> Opened<M> {
    ghost use Rattle.back_store.specs.BackView.{medium_of};
    ghost use Rattle.dude_base.specs.Image.{image_words};
    ghost use Rattle.dude_base.specs.Sizes.{IsAccepted};
    ghost use Rattle.dude_base.specs.declared.limits.TheConstants.{MAX_NUMBER};
    ghost use Rattle.dude_recover.specs.Opened.{HasParts, HoldsWhereIdle, IsOpened};
    ghost use Rattle.std.specs.Prelude.{◌≡◌, ◌≤◌, IfOk, MatchResult};
    ghost use Rattle.tatp_layout.specs.StandsFor.{IsLawful};

    /// The image on a medium at rest, whose home has these words. On want of memory the medium is given back.
    pub fn new(
        alloc: Global,
        medium: M,
        lay: Layout,
        words: Vec<u64>,
        number: u64,
    ) -> Result<Opened<M>, (AllocError, M)>
        requires accepted { IsAccepted lay }
        requires room { image_words lay ≤ (M.sight medium).len }
        requires small { number ≤ MAX_NUMBER }
        requires lawful { IsLawful lay words.items }
        ensures opened { IfOk result IsOpened }
        ensures parts { IfOk result (HasParts lay number words.items) }
        ensures medium { MatchResult result (λ o. medium_of o.back ≡ medium) (λ r. r.1 ≡ medium) }
        ensures holds { IfOk result (λ o. HoldsWhereIdle lay number words.items (M.sight medium)) }
    {
        let sizes = lay.sizes();
        match Back::new(alloc, medium, &sizes, number) {
            Ok(back) => Ok(Opened {
                back,
                lay,
                sizes,
                words,
                number,
            }),
            Err(refused) => Err(refused),
        }
    }
}
