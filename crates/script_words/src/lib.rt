//! What the programs of tests share: the lines and words of their scripts, and the replay of an image by a plain slow program, the
//! reference that they compare with.
//!
//! The replay shares no code with what it is compared to: limits, layout and rules stand here once more, as numbers.
#![tactic(auto)]

mod changed;
mod lines;
mod log;
mod replaying;
mod shape;
mod words;

pub use changed::say_changed;
pub use lines::{TakeLine, take_lines};
pub use replaying::{Replay, recover, recovers_to};
pub use words::{is_remark, number_at, number_of, numbers_of, pair_of, pairs_of, words_of};
