//! A round over all lanes: replies are taken from each in turn, and their lines make a text.

ghost use Rattle.dude_stream.specs.Printing.{HadTurn, HasGathered, HasGatheredSome, IsDrained, Lessens};
ghost use Rattle.std.specs.Prelude.{◌<◌, length, All, IfOk, IsFalse, OnErr, OnOk};

use crate::outlet::Outlet;
use std::alloc::AllocError;

/// Takes replies from each lane, and appends their lines; whether there was one.
pub(crate) fn gather_round(outlets: &mut [Outlet], text: &mut Vec<u8>) -> Result<bool, AllocError>
    ensures ok { OnOk result
        (HasGathered outlets.old outlets.new text.old.items text.new.items) }
    ensures drained { IfOk result (λ some. IsFalse some → All IsDrained outlets.new) }
    ensures lessens { IfOk result (λ some. Lessens some outlets.old outlets.new) }
    ensures err { OnErr result
        (HasGatheredSome outlets.old outlets.new text.old.items text.new.items) }
{
    let mut some = false;
    for lane in 0..outlets.len() {
        if gather_lane(outlets, lane, text)? {
            some = true;
        }
    }
    Ok(some)
}

// Takes replies from this lane, and appends their lines; whether there was one.
fn gather_lane(outlets: &mut [Outlet], lane: usize, text: &mut Vec<u8>) -> Result<bool, AllocError>
    requires lane { lane < length outlets.old }
    ensures ok { OnOk result
        (HasGathered outlets.old outlets.new text.old.items text.new.items) }
    ensures turn { IfOk result (HadTurn lane outlets.old outlets.new) }
    ensures err { OnErr result
        (HasGatheredSome outlets.old outlets.new text.old.items text.new.items) }
{
    outlets[lane].take_some(text)
}
