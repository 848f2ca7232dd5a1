//! Whether a printed run, read line by line, is a one-thread run of its files.
#![tactic(auto)]

mod blanks;
mod bytes;
mod claim;
mod claims;
mod copy;
mod judge;
mod last;
mod laws;
mod line;
mod order;
mod reading;
mod request_lines;
mod rules;
mod verdict;
mod walk;

pub use blanks::blank_claims;
pub use claim::Claim;
pub use judge::audit;
pub use laws::{law_of_printed_runs, law_of_verdicts};
pub use reading::{Reading, read_claims};
pub use verdict::Verdict;
