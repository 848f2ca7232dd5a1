//! What a lane keeps of a record that waits.

/// A bundle that waits in a lane: its last number, how many before it are covered too, the slot of its head, and how many
/// writes it has. There is one for each cell of the rings, so it is kept small.
#[derive(Clone, Copy, Debug)]
pub struct Entry {
    pub last: u64,
    pub span: u8,
    pub slot: u16,
    pub count: u8,
}
