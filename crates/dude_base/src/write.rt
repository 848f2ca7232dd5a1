//! The write of one home word.

/// A store of `value` in the home word `at`.
#[derive(Clone, Copy, PartialEq, Eq)]
pub struct Write {
    pub at: u64,
    pub value: u64,
}
