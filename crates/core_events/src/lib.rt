//! The machine of running transactions: its events, where each is allowed, and the state that they
//! keep. No thread and no handle is here, and nothing runs: a program that takes these steps on
//! shared words rests on these definitions and laws.
#![tactic(auto)]

mod kept;
mod laws;
mod one_commit;
mod told;

pub use kept::{law_of_keeping, law_of_steps};
pub use laws::{
    law_of_entries, law_of_locks, law_of_numbers, law_of_order, law_of_pages, law_of_threads,
    law_of_turn, law_of_values,
};
pub use one_commit::law_of_a_commit;
pub use told::{law_of_telling, law_of_views};
