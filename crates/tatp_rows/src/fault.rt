//! Why there is no new home.

/// Why there is no new home.
#[derive(Clone, Copy)]
pub enum PopFault {
    /// The population has more call forwardings than the layout has room for.
    TooFew { rows: u64, calls: u64 },
    /// Want of memory.
    NoMemory,
}
