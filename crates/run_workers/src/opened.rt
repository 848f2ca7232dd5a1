//! All that workers and the printer need.

use crate::jobs::Jobs;
use dude_stream::Outlet;

/// All that workers and the printer need. Behind it nothing fails for want of memory but a line's text.
#[derive(Drop)]
pub(crate) struct Opened<X> {
    /// The jobs, with their ends of the lanes.
    pub(crate) jobs: Jobs<X>,
    /// The printer's ends, in the order of the files.
    pub(crate) outlets: Vec<Outlet>,
    /// It has room for a number for each file.
    pub(crate) printed: Vec<u64>,
}
