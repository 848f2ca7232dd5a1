//! The printed order.

ghost use Rattle.dude_audit.specs.Order.{AreApart, ClaimPrecedes};
ghost use Rattle.std.specs.Prelude.{AllPairs, IsPermutation};

use crate::Claim;

/// Puts lines in the order in which their requests are printed by number. It takes no memory.
pub(crate) fn put_in_printed_order(claims: &mut Vec<Claim>)
    ensures same { IsPermutation claims.old.items claims.new.items }
    ensures sorted { AllPairs AreApart claims.old.items → AllPairs ClaimPrecedes claims.new.items }
{
    claims.sort_unstable_by_key(|c| (c.number, !c.wrote, c.file, c.index));
}
