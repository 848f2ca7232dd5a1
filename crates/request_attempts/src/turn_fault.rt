//! Why a turn didn't do what was wanted.

/// Why a turn didn't do what was wanted.
#[derive(Clone, Copy)]
pub enum TurnFault {
    /// It counts as a refusal: the turn is another's, or the page can't be shown now.
    Refused,
    /// The back met a fault.
    Fault,
}
