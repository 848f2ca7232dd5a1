//! How one transaction for a request ended.

use stm_transactions::lost::Lost;
use tatp_model::done::Done;
use word_space::stop::Stop;

/// How one transaction for a request ended.
#[derive(Clone, Copy)]
pub enum Once {
    Done(Done),
    /// The next box held the record of this number.
    Full(u64),
    Stopped(Stop),
    Lost(Lost),
}
