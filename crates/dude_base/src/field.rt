//! The fields of the sizes of an image.

/// A field of `Sizes`, in the order of the struct.
#[derive(Clone, Copy, Debug, PartialEq, Eq)]
pub enum Field {
    /// How many subscribers there are.
    Subscribers,
    /// For how many call forwardings there is room.
    Calls,
    /// How many log rings there are.
    Rings,
    /// How many cells each ring has.
    Cells,
    /// How many pages the home has; it follows from the subscribers, the calls and the index.
    Pages,
    /// Whether there is an ordered index, 1 or 0. It is tested before the pages.
    Index,
}
