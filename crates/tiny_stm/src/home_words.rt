//! The vector of home words that was handed in.

ghost use Rattle.std.specs.Prelude.{◌≡◌};

use core_table::terms::Terms;
use pmem_trait::Medium;
use stm_slots::opening::Opening;

/// The home words that a table was made with.
pub(crate) fn words_of<M: Medium>(opening: Opening<M>) -> Vec<u64>
    ensures { result.items ≡ opening.terms.opening }
{
    let Opening { terms, back: _ } = opening;
    let Terms {
        threads: _,
        locks: _,
        pages: _,
        frames: _,
        boxes: _,
        opening: words,
        first: _,
    } = terms;
    words
}
