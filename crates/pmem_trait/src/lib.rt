//! Byte-addressable persistent memory as a transaction system sees it: words in lines of eight, put, flushed and
//! fenced, and what a crash at any moment may leave of them.
//!
//! What clauses see of a medium is one record of plain data, its sight (`specs/Sights`): the length, the moment, the
//! count of faults, and, where these are visible, the state at each moment and the list of calls made. `proofs/` has
//! the laws that callers compose.
#![tactic(auto)]

mod call;
mod failed;
mod fault_count;
mod group;
mod made;
mod medium;
mod medium_laws;

pub use call::Call;
pub use failed::Failed;
pub use fault_count::FaultCount;
pub use group::{flush_all, put_all, settle_group};
pub use made::Made;
pub use medium::Medium;
pub use medium_laws::{
    OfImages, law_of_calls, law_of_groups, law_of_half_done, law_of_listing, law_of_reads,
    law_of_settling,
};
