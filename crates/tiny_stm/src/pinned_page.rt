//! A page that was found pinned.

/// A page that was found pinned, and its entry.
#[derive(Clone, Copy)]
pub struct PinnedPage {
    pub page: u64,
    pub seen: u64,
}
