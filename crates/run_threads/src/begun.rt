//! Transactions that have begun over an opened image.

use pmem_trait::Medium;
use tatp_layout::Layout;
use tiny_stm::stm::{Pass, Stm};

/// Transactions that have begun over an opened image: their table, its first pass, and where the tables of the home stand.
pub(crate) struct Begun<M: Medium> {
    pub(crate) stm: Stm<M>,
    pub(crate) pass: Pass,
    pub(crate) lay: Layout,
}
