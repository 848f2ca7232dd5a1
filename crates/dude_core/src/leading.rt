//! How waiting bundles lead from one number to others.

ghost use Rattle.dude_base.specs.Records.{HasNumbers, first_of};
ghost use Rattle.dude_core.specs.Named.{Tells};
ghost use Rattle.redo_record.specs.Waiting.{Waiting, AreDisjoint, IsEnd};
ghost use Rattle.std.specs.List.{Contains};
ghost use Rattle.std.specs.Prelude.{◌≡◌, ◌≢◌, ◌+◌, All, IfSome, IfNone};

use crate::waiting_bundle::WaitingBundle;
use dude_base::bundle::Bundle;

/// The bundle that begins behind the number.
pub(crate) fn bundle_behind(waiting: &[WaitingBundle], number: u64) -> Option<&Bundle>
    requires { All (λ w. HasNumbers w.redo) waiting.now }
    ensures some { IfSome result (λ r. (w : Waiting) × Contains waiting.now w × (w.redo ≡ r.now)
        × (first_of r.now ≡ number + 1)) }
    ensures none { IfNone result ((w : Waiting) → Contains waiting.now w
        → first_of w.redo ≢ number + 1) }
{
    for bundle in waiting {
        if bundle.redo().first() - 1 == number {
            return Some(bundle.redo());
        }
    }
    None
}

/// Whether waiting bundles lead from one number to another.
pub(crate) fn leads_to(waiting: &[WaitingBundle], from: u64, number: u64) -> bool
    requires numbers { All (λ w. HasNumbers w.redo) waiting.now }
    requires distinct { AreDisjoint waiting.now }
    ensures { Tells result (IsEnd waiting.now from number) }
{
    let mut end = from;
    while end < number {
        match bundle_behind(waiting, end) {
            Some(bundle) => end = bundle.last(),
            None => return false,
        }
    }
    end == number
}
