//! Why the printer stopped before its end.

/// Why the printer stopped before its end.
#[derive(Clone, Copy, Debug, PartialEq, Eq)]
pub enum PrintFault {
    /// The sink failed.
    Sink,
    /// There was no memory for a line.
    NoMemory,
}
