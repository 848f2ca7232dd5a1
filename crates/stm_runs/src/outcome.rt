//! What came of what passes did.

use stm_transactions::lost::Lost;
use stm_transactions::split_fault::SplitFault;
use stm_turns::{PumpFault, Pumped};
use tiny_stm::FetchFault;
use word_space::stop::Stop;

/// How a transaction ended.
#[derive(Clone, Copy)]
pub enum Ended {
    Done { number: u64, wrote: bool },
    /// It didn't begin: the next box held the record of this number.
    Full(u64),
    Stopped(Stop),
    Lost(Lost),
    /// It didn't begin: the pass has no draw left.
    NoDraw,
}

/// What one pass was answered.
#[derive(Clone, Copy)]
pub enum Answer {
    Ended(Ended),
    Pumped(Result<Pumped, PumpFault>),
    Fetched(Result<(), FetchFault>),
    /// There is no such page.
    NoPage,
}

/// What came of a move.
#[derive(Clone, Copy)]
pub enum Outcome {
    /// So many draws are left to the first pass, and so many has the new one.
    Split { left: u64, new: u64 },
    NoSplit(SplitFault),
    Joined,
    One(Answer),
    /// What the other pass was answered, where it came to that, and how the transaction ended.
    Around(Option<Answer>, Ended),
    /// There is no such pass, or no such draws, or no memory.
    Nothing,
}
