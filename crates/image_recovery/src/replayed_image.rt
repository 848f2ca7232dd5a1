//! What the replay of an image gives.

use dude_base::sizes::Sizes;

/// What the replay of an image gives.
#[derive(Drop)]
pub struct ReplayedImage {
    /// The sizes that the image's header names.
    pub sizes: Sizes,
    /// The last number that follows the mark without a gap.
    pub number: u64,
    /// The home words at that number.
    pub words: Vec<u64>,
}
