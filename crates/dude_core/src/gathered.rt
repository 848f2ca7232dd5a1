//! Records in boxes that are persisted together.

use dude_base::bundle::Bundle;

/// A persist that a call goes on with: the bundle and its ring, and whether the call is its last one.
#[derive(Drop)]
pub(crate) struct Gathered {
    pub ring: u64,
    pub bundle: Bundle,
    pub is_last: bool,
}
