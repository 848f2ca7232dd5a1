//! The requests: TATP's seven transactions, and this project's own `SYNC`.

/// A request. Its ranges are `IsInRange` of `specs/Request.antt`.
#[derive(Clone, Copy, PartialEq, Eq)]
pub enum Request {
    /// `GET_SUBSCRIBER_DATA`: the row of a subscriber.
    GetSubscriber {
        s_id: u64,
    },
    /// `GET_NEW_DESTINATION`: the phone numbers that calls from `start_time` to
    /// `end_time` are forwarded to.
    GetDestination {
        s_id: u64,
        sf_type: u64,
        start_time: u64,
        end_time: u64,
    },
    /// `GET_ACCESS_DATA`: the data of an access row.
    GetAccess {
        s_id: u64,
        ai_type: u64,
    },
    /// `UPDATE_SUBSCRIBER_DATA`: sets the subscriber's `bit_1` and the
    /// facility's `data_a`.
    UpdateSubscriber {
        s_id: u64,
        bit_1: u64,
        sf_type: u64,
        data_a: u64,
    },
    /// `UPDATE_LOCATION`: sets the `vlr` of the subscriber with the phone number.
    UpdateLocation {
        sub_nbr: u64,
        vlr: u64,
    },
    /// `INSERT_CALL_FORWARDING`: adds a call row.
    InsertCall {
        sub_nbr: u64,
        sf_type: u64,
        start_time: u64,
        end_time: u64,
        numberx: u64,
    },
    /// `DELETE_CALL_FORWARDING`: removes a call row.
    DeleteCall {
        sub_nbr: u64,
        sf_type: u64,
        start_time: u64,
    },
    /// `SYNC`: waits until the file's earlier requests are durable.
    Sync,
}
