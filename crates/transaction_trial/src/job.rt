//! What one thread has to do, and what it did.

use crate::counts::Counts;
use stm_transactions::pass::Pass;
use tatp_model::done::Done;
use tatp_model::request::Request;

/// What one thread has to do, and what it did.
#[derive(Drop)]
pub struct Job {
    pub file: u64,
    pub pass: Pass<()>,
    pub requests: Vec<Request>,
    pub done: Vec<Done>,
    pub counts: Counts,
    /// Nothing: so what two threads write lies on cache lines of their own.
    pub apart: [u64; 16],
}
