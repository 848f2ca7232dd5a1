//! What one worker has to do, and what it did.

use crate::work_end::WorkEnd;
use dude_stream::Outbox;
use stm_transactions::pass::Pass;
use tatp_model::done::Done;

/// What one worker has to do, and what it did.
#[derive(Drop)]
pub struct Job<X> {
    /// Which file it serves.
    pub file: u64,
    pub pass: Pass<X>,
    /// The requests done so far, in the file's order. It has room for all of the file.
    pub done: Vec<Done>,
    /// How it ended. Before its work all requests are set aside.
    pub end: WorkEnd,
    /// Its end of a lane, where it sends replies while it works.
    pub outbox: Option<Outbox>,
    /// Nothing: so what two workers write lies on cache lines of their own.
    pub apart: [u64; 16],
}

impl<X> Job<X> {
    ghost use Rattle.run_workers.specs.Sending.{IsSameLane, SendsFirst};
    ghost use Rattle.std.specs.Prelude.{◌≡◌};

    /// Sends as many of the requests done, in their order, as its lane takes.
    pub fn send(&mut self)
        requires sent { SendsFirst self.old }
        ensures same { self.new ≡ record self.old { outbox = self.new.outbox } }
        ensures lane { IsSameLane self.old.outbox self.new.outbox }
        ensures sent { SendsFirst self.new }
    {
        if let Some(outbox) = &mut self.outbox {
            outbox.send_from(&self.done);
        }
    }
}
