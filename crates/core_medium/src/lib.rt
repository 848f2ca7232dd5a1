//! The machine of running transactions with the medium on which its log lies: one call on the
//! medium is a step. What the log has of a history is kept by each step, so whatever steps all
//! threads make, a crash recovers to the values at a number that is at least what was told, and of
//! served requests to a database. Nothing runs here.
#![tactic(auto)]

mod database_laws;
mod durable_commit;
mod laws;
mod log_laws;

pub use database_laws::law_of_recovered_databases;
pub use durable_commit::law_of_a_durable_commit;
pub use laws::{
    law_of_combined_writes, law_of_crashes, law_of_images, law_of_machines, law_of_marks,
    law_of_page_reads, law_of_start, law_of_whole_calls, law_of_word_steps,
};
pub use log_laws::{law_of_arrays, law_of_log_calls, law_of_log_events};
