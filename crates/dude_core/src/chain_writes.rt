//! The writes of waiting bundles that lead from one number to another.

ghost use Rattle.dude_core.specs.Chains.{CanChain, HasTaken};
ghost use Rattle.redo_record.specs.Waiting.{IsEnd};
ghost use Rattle.std.specs.Prelude.{◌≡◌, MatchBool};

use crate::leading::bundle_behind;
use crate::waiting_bundle::WaitingBundle;
use group_combine::{Group, take_bundle};

/// Takes the writes of the waiting bundles that lead from one number to another; whether there are
/// such bundles.
pub(crate) fn take_chain(out: &mut Group, waiting: &[WaitingBundle], from: u64, number: u64) -> bool
    requires { CanChain waiting.now out.old.room }
    ensures room { out.new.room ≡ out.old.room }
    ensures taken { MatchBool result (HasTaken waiting.now from number out.new.taken)
        (IsEnd waiting.now from number → ⊥) }
{
    out.clear();
    let mut end = from;
    while end < number {
        match bundle_behind(waiting, end) {
            Some(bundle) => {
                take_bundle(bundle, out);
                end = bundle.last();
            }
            None => return false,
        }
    }
    end == number
}
