//! A call that was made, and whether it failed.

use crate::call::Call;

/// A call that was made on a medium, and whether it failed.
#[derive(Clone, Copy)]
pub struct Made {
    pub call: Call,
    pub failed: bool,
}
