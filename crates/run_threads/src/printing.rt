//! What was printed while threads ran.

use dude_stream::PrintFault;

/// What was printed while threads ran.
#[derive(Drop)]
pub struct Printing {
    /// Of each file, how many of its first replies are printed.
    pub printed: Vec<u64>,
    /// Why the printer stopped, if it did.
    pub stopped: Option<PrintFault>,
}
