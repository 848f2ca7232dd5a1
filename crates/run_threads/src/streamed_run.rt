//! What became of a run whose lines were printed while it went on.

use dude_engine::Ran;

/// What became of a run whose lines were printed while it went on.
#[derive(Drop)]
pub struct Streamed<M> {
    pub ran: Ran<M>,
    /// Whether the sink failed.
    pub sink_failed: bool,
}
