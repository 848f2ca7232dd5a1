//! Requests that were served, with the replies that a script names.

use crate::population::{FIRST_ROW, access};
use crate::stop::Stop;
use std::alloc::Global;
use tatp_csv::read_requests;
use tatp_model::{Done, Numbers, Reply, SubRow};

/// A request that was served: its number, its record, the name of its reply, and the numbers of that.
pub fn done_of(alloc: Global, words: &[&str], numbers: &[u64]) -> Result<Done, Stop> {
    let [_, record, reply, ..] = words else {
        return Err(Stop::NoCommand);
    };
    let [number, fields @ ..] = numbers else {
        return Err(Stop::NoCommand);
    };
    let Ok(requests) = read_requests(alloc, record.as_bytes()) else {
        return Err(Stop::NoCommand);
    };
    let ([request, ..], Some(reply)) = (requests.as_slice(), reply_of(reply, fields)) else {
        return Err(Stop::NoCommand);
    };
    Ok(Done {
        file: 0,
        index: 0,
        number: *number,
        wrote: false,
        request: *request,
        reply,
    })
}

/// The reply of this name. Behind it stand the phone numbers of `destinations`, and the `vlr` of `subscriber`, whose other
/// fields are those of a new database; `access` gives the first access row of such a one.
fn reply_of(name: &str, numbers: &[u64]) -> Option<Reply> {
    let count = numbers.len() as u64;
    let items = three_of(numbers);
    match name {
        "subscriber" => Some(Reply::Subscriber(SubRow {
            vlr: items[0],
            ..FIRST_ROW
        })),
        "destinations" => Some(Reply::Destinations(Numbers { count, items })),
        "access" => Some(Reply::Access(access(1, 2, 1, *b"CDE", *b"DEFGH").info)),
        _ => bare_reply(name),
    }
}

/// A reply with no number.
fn bare_reply(name: &str) -> Option<Reply> {
    match name {
        "changed" => Some(Reply::Changed),
        "missing" => Some(Reply::Missing),
        "no_facility" => Some(Reply::NoFacility),
        "duplicate" => Some(Reply::Duplicate),
        "full_table" => Some(Reply::FullTable),
        "durable" => Some(Reply::Durable),
        _ => None,
    }
}

/// The first three numbers, with 0 where there are fewer.
fn three_of(numbers: &[u64]) -> [u64; 3] {
    match numbers {
        [] => [0, 0, 0],
        [first] => [*first, 0, 0],
        [first, second] => [*first, *second, 0],
        [first, second, third, ..] => [*first, *second, *third],
    }
}
