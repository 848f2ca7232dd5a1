//! Before the workers start: jobs, lanes, and the memory for what comes behind.

ghost use Rattle.run_workers.specs.Jobs.{HasRoom};
ghost use Rattle.run_workers.specs.Lanes.{AreOpen, AreOpenLanes, IsOpenLane};
ghost use Rattle.run_workers.specs.Work.{AreNew, CameBack, MaySplit, work_files};
ghost use Rattle.std.specs.Prelude.{◌≡◌, ◌≤◌, [], length, map, IfErr, IfOk, vec_capacity};

use crate::handing::hand_out;
use crate::lanes::Lanes;
use crate::no_memory::NoMemory;
use crate::opened::Opened;
use crate::work::Work;
use dude_stream::{Lane, Outbox, Outlet};
use std::alloc::{AllocError, Global};
use stm_transactions::pass::Pass;
use stm_transactions::rule::TransactionRule;
use tatp_model::request::Request;

/// How many replies a lane takes while none is received.
const ROOM: u64 = 64;

impl<'a, S, X, K, P: TransactionRule<S, X, K>, T, G> Work<'a, S, X, K, P, T, G> {
    /// Makes a job for each file, and a lane from it. All memory is taken here, and that of the lanes before a pass is split.
    pub(crate) fn open_all(&self, pass: Pass<X>) -> Result<Opened<X>, NoMemory<X>>
        requires { MaySplit self.now pass }
        ensures fresh { IfOk result (λ o. AreNew self.now o.jobs.each.items) }
        ensures room { IfOk result (λ o. HasRoom (work_files self.now) o.jobs) }
        ensures lanes { IfOk result (λ o.
            AreOpen (work_files self.now) o.jobs.each.items o.outlets.items) }
        ensures printed { IfOk result (λ o. o.printed.items ≡ []) }
        ensures counts { IfOk result (λ o. length self.now.files.now ≤ vec_capacity o.printed) }
        ensures err { IfErr result (λ e. CameBack self.now pass e.pass) }
    {
        let Ok(lanes) = open_lanes(self.alloc, self.files) else {
            return Err(NoMemory { pass });
        };
        let Ok(printed) = Vec::with_capacity(self.alloc, self.files.len()) else {
            return Err(NoMemory { pass });
        };
        let mut jobs = self.make_jobs(pass)?;
        let Lanes { outboxes, outlets } = lanes;
        hand_out(outboxes, &mut jobs.each);
        Ok(Opened {
            jobs,
            outlets,
            printed,
        })
    }
}

// A lane for each file.
fn open_lanes(alloc: Global, files: &[Vec<Request>]) -> Result<Lanes, AllocError>
    ensures { IfOk result (λ lanes.
        AreOpenLanes (map (λ f. f.items) files.now) lanes.outboxes.items lanes.outlets.items) }
{
    let mut outboxes = Vec::with_capacity(alloc, files.len())?;
    let mut outlets = Vec::with_capacity(alloc, files.len())?;
    for file in 0..files.len() {
        let (outbox, outlet) = open_lane(alloc, file as u64, &files[file])?;
        outboxes.push(outbox)?;
        outlets.push(outlet)?;
    }
    Ok(Lanes { outboxes, outlets })
}

// The lane of a file. As many lines are left as the file has requests.
fn open_lane(alloc: Global, file: u64, requests: &[Request]) -> Result<(Outbox, Outlet), AllocError>
    ensures { IfOk result (λ ends. IsOpenLane requests.now ends.0 ends.1) }
{
    let (feed, drain) = Lane::new(alloc, file, ROOM)?;
    let left = requests.len();
    Ok((Outbox { feed, sent: 0 }, Outlet { drain, left }))
}
