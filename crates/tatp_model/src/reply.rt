//! The replies.

use crate::access_row::AccessData;
use crate::numbers::Numbers;
use crate::sub_row::SubRow;

/// What a request is answered.
#[derive(Clone, Copy, PartialEq, Eq)]
pub enum Reply {
    /// The row that `GET_SUBSCRIBER_DATA` asked for.
    Subscriber(SubRow),
    /// The phone numbers of `GET_NEW_DESTINATION`, by rising start time.
    Destinations(Numbers),
    /// The data that `GET_ACCESS_DATA` asked for.
    Access(AccessData),
    /// The tables were written.
    Changed,
    /// A row that the request names isn't there.
    Missing,
    /// The subscriber is there, and its facility isn't.
    NoFacility,
    /// The call row is there already.
    Duplicate,
    /// As many call rows stand as there may be.
    FullTable,
    /// The answer to a `SYNC`.
    Durable,
}
