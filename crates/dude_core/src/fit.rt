//! How calls that were made, and one more, go on a list.

ghost use Rattle.dude_core.specs.CallFits.{IsFit, IsFront, IsApart};
ghost use Rattle.std.specs.Prelude.{IfSome, IfNone};

use crate::call_list::CallList;
use pmem_trait::Call;

/// How calls that were made, and one more, go on a list.
#[derive(Clone, Copy, Debug, PartialEq, Eq)]
pub enum Fit {
    /// They aren't its first calls.
    Apart,
    /// They are, and some are left.
    Front,
    /// They are the whole list.
    Whole,
}

/// How the calls made, and this one, go on the list.
pub fn fit_of<L: CallList>(list: &L, made: &[Call], call: Call) -> Fit
    ensures { IsFit result (L.calls list.now) made.now call }
{
    let count = made.len() as u64;
    if list.len() <= count {
        return Fit::Apart;
    }
    for k in 0..count {
        if list.get(k) != made[k as usize] {
            return Fit::Apart;
        }
    }
    if list.get(count) != call {
        return Fit::Apart;
    }
    if list.len() == count + 1 {
        Fit::Whole
    } else {
        Fit::Front
    }
}

/// Whether the call, behind those made, ends the list; `None` where they aren't its first calls.
pub(crate) fn ends_by<L: CallList>(list: &L, made: &[Call], call: Call) -> Option<bool>
    ensures some { IfSome result (IsFront (L.calls list.now) made.now call) }
    ensures none { IfNone result (IsApart (L.calls list.now) made.now call) }
{
    match fit_of(list, made, call) {
        Fit::Apart => None,
        Fit::Front => Some(false),
        Fit::Whole => Some(true),
    }
}
