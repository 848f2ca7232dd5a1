//! How a try of a request ended.

use tatp_model::done::Done;

/// How a try of a request ended.
#[derive(Clone, Copy)]
pub enum Tried {
    Done(Done),
    /// It is to be made again.
    Again,
    /// The back met a fault.
    Device,
    NoMemory,
}
