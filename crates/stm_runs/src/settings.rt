//! What transactions are run with.

use dude_base::run::Run;

/// What transactions are run with.
#[derive(Clone, Copy)]
pub struct Settings {
    pub threads: u64,
    pub run: Run,
}

/// Which call on the medium fails, counted from the start of the transactions, and whether it has its effect first; 0 is none.
#[derive(Clone, Copy)]
pub struct Failing {
    pub call: u64,
    pub late: bool,
}

/// No call fails.
pub const NONE: Failing = Failing {
    call: 0,
    late: false,
};
