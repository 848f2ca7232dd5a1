//! What became of a run whose bundles are shipped.

use crate::ran::Ran;
use dude_base::bundle::Bundle;

/// What became of a run, and the packets for its followers.
#[derive(Drop)]
pub struct Shipped<M> {
    pub ran: Ran<M>,
    /// The bundles that were persisted, in order.
    pub packets: Vec<Bundle>,
}
