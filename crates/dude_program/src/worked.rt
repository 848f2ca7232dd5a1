//! What became of a command's requests, before its output.

ghost use Rattle.back_store.specs.BackView.{medium_of};
ghost use Rattle.dude_engine.specs.Requests.{AreInRange, HasNumbersFor};
ghost use Rattle.dude_program.specs.Work.{RanOverOpened, fault_of_end};
ghost use Rattle.dude_recover.specs.Opened.{IsOpened};
ghost use Rattle.std.specs.Prelude.{◌≡◌, ◌≤◌, [], None, length};
ghost use Rattle.tatp_model.specs.Files.{requests_in};

use command_edges::Fault;
use dude_engine::{Ran, RanEnd, plain};
use dude_recover::Opened;
use pmem_trait::Medium;
use std::alloc::Global;
use tatp_model::{Done, Request};

/// What became of a command's requests, before its output.
#[derive(Drop)]
pub struct Worked<M> {
    pub done: Vec<Done>,
    pub medium: M,
    /// The last number told.
    pub last: u64,
    pub fault: Option<Fault>,
}

impl<M> Worked<M> {
    /// What became of them in this run.
    pub fn from_ran(ran: Ran<M>) -> Worked<M>
        ensures done { result.done ≡ ran.done }
        ensures medium { result.medium ≡ ran.medium }
        ensures last { result.last ≡ ran.last }
        ensures fault { result.fault ≡ fault_of_end ran.end }
    {
        Worked {
            done: ran.done,
            medium: ran.medium,
            last: ran.last,
            fault: fault_of(ran.end),
        }
    }
}

// The fault that a run ended with, if any.
fn fault_of(end: RanEnd) -> Option<Fault>
    ensures { result ≡ fault_of_end end }
{
    match end {
        RanEnd::Whole => None,
        RanEnd::Device => Some(Fault::Device),
        RanEnd::NoMemory => Some(Fault::Memory),
    }
}

/// Runs the requests of files over an opened image, on one thread.
pub fn work<M: Medium>(alloc: Global, opened: Opened<M>, files: &[Vec<Request>]) -> Worked<M>
    requires opened { IsOpened opened }
    requires rings { length files.now ≤ opened.sizes.rings }
    requires in_range { AreInRange (requests_in files.now) }
    requires numbers { HasNumbersFor opened.number (requests_in files.now) }
    ensures { RanOverOpened M.sight opened files.now result }
{
    Worked::from_ran(plain(alloc, opened, files))
}

/// An opened image with no requests.
pub fn idle<M: Medium>(alloc: Global, opened: Opened<M>) -> Worked<M>
    ensures done { result.done.items ≡ [] }
    ensures medium { result.medium ≡ medium_of opened.back }
    ensures last { result.last ≡ opened.number }
    ensures fault { result.fault ≡ None }
{
    let last = opened.number;
    Worked {
        done: Vec::new(alloc),
        medium: opened.back.into_medium(),
        last,
        fault: None,
    }
}
