//! What a script has passes do.

/// A read of a home word, or a write to one.
#[derive(Clone, Copy)]
pub enum Access {
    Read(u64),
    Write { at: u64, value: u64 },
}

/// What one pass does.
#[derive(Drop)]
pub enum Act {
    /// A transaction.
    Transact(Vec<Access>),
    Pump,
    /// It brings a page into a frame.
    Fetch(u64),
}

/// What passes do.
#[derive(Drop)]
pub enum Move {
    /// The first pass gives so many draws to a new one.
    Split(u64),
    /// The last pass is joined into the first one.
    Join,
    One {
        who: u64,
        act: Act,
    },
    /// A transaction of one pass, between whose accesses another pass does something.
    Around {
        who: u64,
        before: Vec<Access>,
        other: u64,
        act: Act,
        after: Vec<Access>,
    },
}
