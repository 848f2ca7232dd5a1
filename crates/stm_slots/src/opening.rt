//! What the table starts with.

use back_store::Back;
use core_table::terms::Terms;
use pmem_trait::Medium;
use std::snapshot::Snapshot;

/// What the table starts with: the sizes and words of the machine, and the back as it is then.
pub struct Opening<M: Medium> {
    pub terms: Terms,
    pub back: Snapshot<Back<M>>,
}
