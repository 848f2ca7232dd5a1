//! The requests of files, run on threads over one opened image: a worker's turns over the back, and the end, where what is left in
//! boxes is persisted in bundles, announced and reproduced, and the image is opened again.
#![tactic(auto)]

mod answers;
pub mod back_turns;
mod beginning;
mod begun;
mod catching_up;
mod ending;
mod home;
mod on_threads;
mod open_bundle;
mod persisting;
mod printing;
mod reopening;
mod rest;
mod rest_files;
mod rest_lines;
mod rests;
mod served;
mod serving;
mod stream_serving;
mod streamed_run;
mod streaming;
mod union;

pub use home::read_home;
pub use on_threads::threaded;
pub use reopening::reopen;
pub use rest::persist_rest;
pub use streamed_run::Streamed;
pub use streaming::streamed;
