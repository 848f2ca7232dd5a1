//! What a turn made durable.

/// What a turn made durable: all up to a number is told, and in the home.
#[derive(Clone, Copy)]
pub struct Pumped {
    pub durable: u64,
    pub reproduced: u64,
}
