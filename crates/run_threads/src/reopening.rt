//! An image is opened again behind running transactions.

ghost use Rattle.back_store.specs.BackView.{medium_of};
ghost use Rattle.dude_base.specs.Image.{image_words};
ghost use Rattle.dude_base.specs.Sizes.{IsAccepted};
ghost use Rattle.dude_base.specs.declared.limits.TheConstants.{MAX_NUMBER, PAGE};
ghost use Rattle.dude_recover.specs.Opened.{HasParts, IsOpened};
ghost use Rattle.run_threads.specs.Reopened.{HoldsReopened};
ghost use Rattle.std.specs.Prelude.{◌≡◌, ◌*◌, ◌≤◌, IfErr, IfOk, MatchResult, length};
ghost use Rattle.tatp_check.specs.Faults.{IsCause};
ghost use Rattle.tatp_check.specs.Order.{IsNotDb};
ghost use Rattle.tatp_check.specs.declared.check_fault.CheckFault.TheVariants.{NoMemory};
ghost use Rattle.tatp_layout.specs.StandsFor.{IsLawful};

use dude_recover::Opened;
use pmem_trait::Medium;
use std::alloc::Global;
use tatp_check::{CheckFault, check};
use tatp_layout::Layout;
use tiny_stm::closed::Closed;

/// The image with the words and the number of what ended, as one that can be run on, over the same medium. No call is made on
/// it. Where the words stand for no tables, as they may over a medium that isn't visible, or on want of memory the medium is
/// given back.
pub fn reopen<M: Medium>(
    alloc: Global,
    closed: Closed<M>,
    lay: Layout,
) -> Result<Opened<M>, (CheckFault, M)>
    requires accepted { IsAccepted lay }
    requires room { image_words lay ≤ (M.sight (medium_of closed.back)).len }
    requires small { closed.number ≤ MAX_NUMBER }
    requires size { length closed.words.items ≡ lay.pages * PAGE }
    ensures opened { IfOk result (λ o. IsOpened o
        × HasParts lay closed.number closed.words.items o) }
    ensures holds { IfOk result (λ o. HoldsReopened M.sight lay closed) }
    ensures medium { MatchResult result (λ o. medium_of o.back ≡ medium_of closed.back)
        (λ r. r.1 ≡ medium_of closed.back) }
    ensures fault { IfErr result (λ r. IsCause (IsNotDb lay closed.words.items) r.0) }
    // Words that stand for tables are refused for want of memory alone.
    ensures accepts { IfErr result (λ r. IsLawful lay closed.words.items → r.0 ≡ NoMemory) }
{
    let Closed {
        back,
        rest: _,
        words,
        number,
    } = closed;
    let medium = back.into_medium();
    match check(alloc, &lay, words.as_slice()) {
        Ok(()) => match Opened::new(alloc, medium, lay, words, number) {
            Ok(opened) => Ok(opened),
            Err((refused, medium)) => Err((CheckFault::from(refused), medium)),
        },
        Err(fault) => Err((fault, medium)),
    }
}
