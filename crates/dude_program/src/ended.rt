//! How a command ended, with the medium that was handed in.

ghost use Rattle.command_edges.specs.Fault.{status_of};
ghost use Rattle.std.specs.Prelude.{◌≡◌, [], Some};

use command_edges::Fault;
use std::alloc::Global;
use tatp_model::Done;

/// How a command ended.
#[derive(Drop)]
pub struct Ended<M> {
    /// 0 where it was carried out, else the fault's status.
    pub status: u8,
    pub fault: Option<Fault>,
    /// The medium that was handed in.
    pub medium: M,
    /// The requests done, in order of file and index. At status 6 and 8 those that wrote last may be in no record on the
    /// medium: at 8 at most the 256 of an open bundle, at 6 on one thread these and the one that it didn't take, and on
    /// threads perhaps more.
    pub done: Vec<Done>,
    ghost exact: { status ≡ status_of fault },
}

impl<M> Ended<M> {
    /// The end of a command, with the status of its fault.
    pub fn new(fault: Option<Fault>, medium: M, done: Vec<Done>) -> Ended<M>
        ensures fault { result.fault ≡ fault }
        ensures medium { result.medium ≡ medium }
        ensures done { result.done ≡ done }
    {
        let status = match &fault {
            None => 0,
            Some(fault) => fault.status(),
        };
        Ended {
            status,
            fault,
            medium,
            done,
        }
    }

    /// Nothing is done, for this fault.
    pub fn refused(alloc: Global, fault: Fault, medium: M) -> Ended<M>
        ensures fault { result.fault ≡ Some fault }
        ensures medium { result.medium ≡ medium }
        ensures done { result.done.items ≡ [] }
    {
        Ended::new(Some(fault), medium, Vec::new(alloc))
    }
}
