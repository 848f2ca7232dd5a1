//! What an image recovers to.

/// What an image recovers to.
#[derive(Drop)]
pub struct Recovered {
    /// The number of the last transaction that the home words have.
    pub number: u64,
    /// The home words.
    pub words: Vec<u64>,
}
