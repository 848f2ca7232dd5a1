//! The waiting records in the order of their numbers.

ghost use Rattle.back_store.specs.HomeGroup.{AreLedWrites};
ghost use Rattle.back_store.specs.Lane.{AreDistinctAt, HasRoomAt, TakesThoseAt};
ghost use Rattle.back_store.specs.Lanes.{AreLanes, AreLed, waiting_of};
ghost use Rattle.dude_base.specs.declared.limits.TheConstants.{MAX_NUMBER};
ghost use Rattle.redo_record.specs.Waiting.{IsContiguousEnd, IsEnd};
ghost use Rattle.std.specs.Prelude.{◌≡◌, ℕ, ◌*◌, ◌<◌, ◌≤◌, length};

use crate::fronts::{fronts_at, next_lane};
use crate::lane::Lane;
use dude_base::limits::MAX_NUMBER;
use dude_base::place::Place;
use group_combine::Group;

/// The number to which the records that wait lead from this one.
pub fn contiguous_end(place: &Place, lanes: &[Lane], from: u64) -> u64
    requires lanes { AreLanes place.now lanes.now }
    requires small { from ≤ MAX_NUMBER }
    ensures end { IsContiguousEnd (waiting_of lanes.now) from result }
    ensures small { result ≤ MAX_NUMBER }
{
    last_end(place, lanes, from, MAX_NUMBER)
}

/// The greatest end up to a number.
pub fn last_end(place: &Place, lanes: &[Lane], from: u64, near: u64) -> u64
    requires lanes { AreLanes place.now lanes.now }
    requires small { near ≤ MAX_NUMBER }
    requires from { from ≤ near }
    ensures led { AreLed lanes.now from result }
    ensures near { result ≤ near }
    ensures last { (n : ℕ) → IsEnd (waiting_of lanes.now) from n → n ≤ near → n ≤ result }
{
    // The sizes are accepted, so there are few rings.
    let _sizes = place.sizes();
    let mut fronts = fronts_at(lanes, from);
    let mut end = from;
    'merge: while let Some(k) = next_lane(lanes, &fronts, end) {
        let lane = &lanes[k];
        let last = lane.last(fronts[k]);
        if last > near {
            return end;
        }
        end = last;
        fronts[k] += 1;
    }
    end
}

/// The last number of the bundle that begins behind a number, where bundles lead on from it.
pub fn next_end(place: &Place, lanes: &[Lane], from: u64, to: u64) -> u64
    requires lanes { AreLanes place.now lanes.now }
    requires led { AreLed lanes.now from to }
    requires some { from < to }
    requires small { to ≤ MAX_NUMBER }
    ensures led { AreLed lanes.now from result }
    ensures over { from < result }
    ensures least { (n : ℕ) → IsEnd (waiting_of lanes.now) from n → from < n → result ≤ n }
{
    // The sizes are accepted, so there are few rings.
    let _sizes = place.sizes();
    let fronts = fronts_at(lanes, from);
    let Some(k) = next_lane(lanes, &fronts, from) else {
        unreachable!()
    };
    let lane = &lanes[k];
    lane.last(fronts[k])
}

// Hands the writes of the bundle at index `k` of a lane to a group.
fn take_writes(lane: &Lane, k: usize, group: &mut Group)
    requires within { k < length lane.now.waiting }
    requires room { HasRoomAt lane.now k group.old }
    ensures taken { TakesThoseAt lane.now k group.old group.new }
    ensures distinct { AreDistinctAt lane.now k }
    ensures room { group.new.room ≡ group.old.room }
{
    for i in 0..lane.writes(k) {
        group.take(lane.write_at(k, i));
    }
}

/// Hands the writes of the records that lead from one number to another to a group, one record behind the other.
pub fn gather(place: &Place, lanes: &[Lane], from: u64, to: u64, group: &mut Group)
    requires lanes { AreLanes place.now lanes.now }
    requires led { AreLed lanes.now from to }
    requires small { to ≤ MAX_NUMBER }
    requires room { 3 * (place.now.rings * place.now.cells) ≤ group.old.room }
    ensures led { AreLedWrites lanes.now from to group.new.taken }
    ensures few { length group.new.taken ≤ 3 * (place.now.rings * place.now.cells) }
    ensures room { group.new.room ≡ group.old.room }
{
    let _sizes = place.sizes();
    group.clear();
    let mut fronts = fronts_at(lanes, from);
    let mut end = from;
    'merge: while end < to {
        let Some(k) = next_lane(lanes, &fronts, end) else {
            unreachable!()
        };
        let lane = &lanes[k];
        end = lane.last(fronts[k]);
        take_writes(lane, fronts[k], group);
        fronts[k] += 1;
    }
}
