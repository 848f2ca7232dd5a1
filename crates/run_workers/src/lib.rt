//! Request files on threads: each has a worker with a pass of its own, and what all did is one list. Beside the workers a
//! printer may hand a sink the lines of their replies.
#![tactic(auto)]

mod comparing;
mod counting;
mod handing;
pub mod job;
pub mod jobs;
pub mod joined;
mod joining;
mod lanes;
mod making;
pub mod no_memory;
mod opened;
mod opening;
mod running;
mod streamed_files;
pub mod work;
pub mod work_end;
mod working;

pub use joining::join_jobs;
pub use streamed_files::StreamedFiles;
pub use work::Work;
