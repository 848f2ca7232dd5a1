//! Orders of requests: what one thread performed in rounds over several files, as it is printed; and what threads answered, each
//! request at a number, along whose printed order one thread answers alike, also where it goes on behind them.
#![tactic(auto)]

mod files;
mod numbered;
mod runs;

pub use files::put_in_files;
pub use numbered::{law_of_numbered_requests, law_of_rests};
pub use runs::law_of_runs;
