//! What all workers did together.

use crate::work_end::WorkEnd;
use stm_transactions::pass::Pass;
use tatp_model::done::Done;

/// What all workers did together.
#[derive(Drop)]
pub struct Joined<X> {
    /// The one pass that is left, into which all others were joined.
    pub pass: Pass<X>,
    /// The requests done, in order of file and index.
    pub done: Vec<Done>,
    /// How many requests of each file are done.
    pub counts: Vec<u64>,
    /// The worst end of a worker: a fault goes over want of memory, and that over requests set aside.
    pub end: WorkEnd,
}
