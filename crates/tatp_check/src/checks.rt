//! The check of an array of home words.

ghost use Rattle.dude_base.specs.declared.limits.TheConstants.{PAGE};
ghost use Rattle.std.specs.Prelude.{◌≡◌, ◌*◌, IfErr, OnOk, length};
ghost use Rattle.tatp_check.specs.Faults.{IsCause};
ghost use Rattle.tatp_check.specs.Order.{IsNotDb};
ghost use Rattle.tatp_layout.specs.StandsFor.{IsLawful};

use crate::check_fault::CheckFault;
use crate::index_check::check_index;
use crate::references::first_unbound;
use crate::walked::walk;
use std::alloc::Global;
use tatp_layout::Layout;

/// Accepts exactly the arrays of home words that stand for tables. The word that it names otherwise is the first one, in the
/// order of checking, at which something is wrong.
pub fn check(alloc: Global, lay: &Layout, a: &[u64]) -> Result<(), CheckFault>
    requires size { length a.now ≡ lay.now.pages * PAGE }
    ensures ok { OnOk result (IsLawful lay.now a.now) }
    ensures fault { IfErr result (IsCause (IsNotDb lay.now a.now)) }
{
    let walked = walk(alloc, lay, a)?;
    match first_unbound(lay, a, &walked) {
        Some(word) => Err(CheckFault::NotDb { word }),
        None => check_index(alloc, lay, a, &walked),
    }
}
