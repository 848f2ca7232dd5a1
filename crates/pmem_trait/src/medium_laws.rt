//! The laws of the medium, each as the contract of a function that does nothing.

ghost use Rattle.pmem_trait.specs.MediumLaws.{LawOfCalls, LawOfGroups, LawOfSettling, LawOfHalfDone, LawOfListing};
ghost use Rattle.pmem_trait.specs.Reads.{LawOfReads};
ghost use Rattle.std.specs.Prelude.{ℕ, List};

use std::marker::Brand;

/// A property of an image, beside the numbers told by then. A caller picks it where it passes `Brand`.
pub trait OfImages {
    ghost has: { List ℕ → List ℕ → Type 0 };
}

impl OfImages for Brand {
    ghost has = { λ told image. Unit {0} };
}

/// What every image has at the entry and after each call of a list, none failing, it has at each moment while the
/// list is made, whether it comes to its end or stops at a failed call, and on any medium.
pub fn law_of_calls<P: OfImages>()
    ensures { LawOfCalls P.has }
{}

/// What every mix of the old words and the written ones has, every image has at each moment of a group of writes.
pub fn law_of_groups<P: OfImages>()
    ensures { LawOfGroups P.has }
{}

/// A group of writes settles each word whose line it flushes, whatever the word was, and leaves the others as they were,
/// where they were settled.
pub fn law_of_settling()
    ensures { LawOfSettling }
{}

/// A call that failed half done leaves no image that couldn't be there before the call or after it.
pub fn law_of_half_done()
    ensures { LawOfHalfDone }
{}

/// Where a medium lists its calls, the list says which calls were made and whether the last one failed.
pub fn law_of_listing()
    ensures { LawOfListing }
{}

/// Reads alone leave the medium's state as it is, at each moment and also where one of them fails.
pub fn law_of_reads()
    ensures { LawOfReads }
{}
