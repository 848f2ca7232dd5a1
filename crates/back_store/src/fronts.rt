//! How far each lane is taken.

ghost use Rattle.back_store.specs.Fronts.{AreFronts, HasNext, NoneHas};
ghost use Rattle.std.specs.Prelude.{◌≡◌, ◌+◌, ◌^◌, ◌<◌, ◌≤◌, length, IfSome, IfNone};

use crate::lane::Lane;
use dude_base::limits::MAX_RINGS;

/// How many records of each lane are taken.
pub type Fronts = [usize; MAX_RINGS as usize];

/// The records up to a number.
pub fn fronts_at(lanes: &[Lane], number: u64) -> Fronts
    requires { length lanes.now ≤ MAX_RINGS }
    ensures fronts { AreFronts lanes.now result number }
    ensures len { length result ≡ MAX_RINGS }
{
    let mut fronts = [0; MAX_RINGS as usize];
    for k in 0..lanes.len() {
        let lane = &lanes[k];
        fronts[k] = lane.count_upto(number);
    }
    fronts
}

/// The lane whose next record begins with the number behind this one.
pub fn next_lane(lanes: &[Lane], fronts: &Fronts, number: u64) -> Option<usize>
    requires few { length lanes.now ≤ MAX_RINGS }
    requires fronts { AreFronts lanes.now fronts.now number }
    requires small { number + 1 < 2 ^ 64 }
    ensures some { IfSome result (HasNext lanes.now fronts.now (number + 1)) }
    ensures none { IfNone result (NoneHas lanes.now (number + 1)) }
{
    for k in 0..lanes.len() {
        let lane = &lanes[k];
        if lane.is_next(fronts[k], number) {
            return Some(k);
        }
    }
    None
}
