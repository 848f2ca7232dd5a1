//! What workers did together, and what of it was printed meanwhile.

use crate::joined::Joined;
use dude_stream::PrintFault;

/// What workers did together, and what of it was printed meanwhile.
#[derive(Drop)]
pub struct StreamedFiles<X> {
    pub joined: Joined<X>,
    /// Of each file, how many of its first replies are printed.
    pub printed: Vec<u64>,
    /// Why the printer stopped, if it did.
    pub stopped: Option<PrintFault>,
}
