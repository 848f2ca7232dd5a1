//! The two ends of a lane for each file.

use dude_stream::{Outbox, Outlet};

/// The two ends of a lane for each file, in the order of the files.
#[derive(Drop)]
pub(crate) struct Lanes {
    pub(crate) outboxes: Vec<Outbox>,
    pub(crate) outlets: Vec<Outlet>,
}
