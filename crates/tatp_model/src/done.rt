//! What is known of a request that a run served.

use crate::reply::Reply;
use crate::request::Request;

/// A request of a run, with its reply.
#[derive(Clone, Copy)]
pub struct Done {
    /// Which file of the run it stands in, from 0.
    pub file: u64,
    /// Which request of that file it is, from 0.
    pub index: u64,
    /// The number that it drew where it wrote; of a `SYNC` a number that is
    /// durable; of another request the number after which it read.
    pub number: u64,
    /// Whether it wrote.
    pub wrote: bool,
    pub request: Request,
    pub reply: Reply,
}
