//! Both ends of each lane, when all workers and the printer have ended.

ghost use Rattle.run_workers.specs.Lanes.{AreLanes, HasReceivedOf, HaveReceived, HaveSameWork, IsLaneOf, IsSameWork};
ghost use Rattle.std.specs.Prelude.{◌≡◌, length};

use crate::job::Job;
use dude_stream::{Lane, Outlet};

/// What was received from each lane is the first part of what its worker sent.
pub(crate) fn compare_lanes<X>(jobs: &mut [Job<X>], outlets: &mut [Outlet])
    requires count { length outlets.old ≡ length jobs.old }
    requires lanes { AreLanes jobs.old outlets.old }
    ensures work { HaveSameWork jobs.old jobs.new }
    ensures received { HaveReceived jobs.old outlets.old }
{
    for lane in 0..jobs.len() {
        compare_lane(&mut jobs[lane], &mut outlets[lane]);
    }
}

// What was received from the lane is the first part of what its worker sent.
fn compare_lane<X>(job: &mut Job<X>, outlet: &mut Outlet)
    requires { IsLaneOf job.old.outbox outlet.old }
    ensures work { IsSameWork job.old job.new }
    ensures received { HasReceivedOf job.old.outbox outlet.old }
{
    if let Some(outbox) = &mut job.outbox {
        Lane::compare(&mut outbox.feed, &mut outlet.drain);
    }
}
