//! A job for each file, and the memory in which the jobs come together.

use crate::job::Job;

/// A job for each file, and the memory in which the jobs come together.
#[derive(Drop)]
pub struct Jobs<X> {
    /// In the order of the files. What all of them did comes together in the list of the first one: it has room for the
    /// requests of all files.
    pub each: Vec<Job<X>>,
    /// It has room for a number for each file.
    pub counts: Vec<u64>,
}
