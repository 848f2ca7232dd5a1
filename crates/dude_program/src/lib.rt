//! The commands of the program: their files, the work on the image, and the output.
//!
//! `dude` carries a command out, over any medium, any files and any sink. Its contract is the headline
//! (`specs/Headline.antt`) with the cause of each fault beside it (`specs/Causes.antt`). `dude_watched` does the same, and each
//! transaction that a thread runs passes a gate of the caller's on its way.
#![tactic(auto)]

mod audit;
mod checks;
mod commands;
mod ended;
mod follow;
mod load;
mod locate;
mod locating;
mod output;
mod prepared;
mod print_time;
mod run;
mod run_options;
mod ship;
mod shipping;
mod shown;
mod top;
mod turner;
mod worked;

pub use command_edges::{Fault, fault_text};
pub use ended::Ended;
pub use top::{dude, dude_watched};
