//! What is to be done with a packet.

/// What is to be done with a packet.
#[derive(Clone, Copy, Debug, PartialEq, Eq)]
pub enum Verdict {
    /// All its numbers were reached before.
    Old,
    /// It is no packet of the leader that was followed so far.
    Strange,
    /// It begins behind the number that is reached.
    Next,
    /// It is kept already.
    Known,
    /// It can be kept.
    Fresh,
    /// There is no room to keep it.
    Full,
}
