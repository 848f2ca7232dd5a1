//! Want of memory before a worker is started.

use stm_transactions::pass::Pass;

/// Want of memory before a worker is started. The pass comes back, with all that was split off it.
#[derive(Drop)]
pub struct NoMemory<X> {
    pub pass: Pass<X>,
}
