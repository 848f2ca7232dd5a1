//! A record that stood in a box at the end.

use dude_base::redo::Redo;

/// A record that stood in a box at the end, and the ring of its thread.
#[derive(Drop)]
pub struct Posted {
    pub ring: u64,
    pub redo: Redo,
}
