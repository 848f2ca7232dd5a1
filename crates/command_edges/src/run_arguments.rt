//! What `run` and `stream` are given.

use std::rc::RcStr;

/// What `run` and `stream` are given: the numbers of the options that stand there, and the files.
#[derive(Clone, Copy)]
pub struct RunArguments<'a> {
    pub frames: Option<u64>,
    pub locks: Option<u64>,
    pub files: &'a [RcStr],
}
