//! The edges of a command: its words, its request files, all read in order before any is parsed, the output that is handed to
//! a sink in pieces, and its fault, with a status and a line.
//!
//! The form of the words is tested here, and their numbers are read by `clap` behind that test. `clap` is given one command at
//! a time, and the command's name in the place of the program's. So it has no subcommand, and `help` is the name of a file. It
//! takes a leading `+` and any count of digits, which the form keeps out.
#![tactic(auto)]

mod audit;
mod command;
mod drive;
mod fault;
mod file_kind;
mod file_texts;
mod file_wanted;
mod files;
mod follow;
mod form;
mod format;
mod fresh;
mod lines;
mod lists;
mod locate;
mod located;
mod matches;
mod numbers;
mod packet_files;
mod printed_run;
mod run;
mod run_arguments;
mod ship;
mod text;

pub use command::{Command, command_of};
pub use fault::{Fault, fault_text};
pub use files::read_files;
pub use lines::print_lines;
pub use located::print_located;
pub use packet_files::read_packet_files;
pub use printed_run::{PrintedRun, read_printed_run};
pub use text::print_text;
