//! The jobs get their ends of the lanes.

ghost use Rattle.run_workers.specs.Lanes.{HaveBoxes, HaveSameWork, IsSameWork};
ghost use Rattle.std.specs.Prelude.{◌≡◌, length, vec_len};

use crate::job::Job;
use dude_stream::Outbox;

/// Gives each job its end of a lane.
pub(crate) fn hand_out<X>(mut outboxes: Vec<Outbox>, jobs: &mut [Job<X>])
    requires { vec_len outboxes ≡ length jobs.old }
    ensures work { HaveSameWork jobs.old jobs.new }
    ensures boxes { HaveBoxes outboxes.items jobs.new }
{
    while let Some(outbox) = outboxes.pop() {
        give(outbox, &mut jobs[outboxes.len()]);
    }
}

// Gives the job its end of a lane.
fn give<X>(outbox: Outbox, job: &mut Job<X>)
    ensures work { IsSameWork job.old job.new }
    ensures outbox { job.new.outbox ≡ Some outbox }
{
    job.outbox = Some(outbox);
}
