//! What a walk through a table has met.

use crate::marks::Marks;
use crate::taken::Taken;

/// What a walk through a table has met.
#[derive(Drop)]
pub struct Seen {
    pub marks: Marks,
    pub taken: Taken,
}
