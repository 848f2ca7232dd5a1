//! When the replies of a run are printed.

/// When the replies of a run are printed.
#[derive(Clone, Copy)]
pub enum PrintTime {
    /// When all requests are done.
    AtEnd,
    /// Each while others are still to come.
    Meanwhile,
}
