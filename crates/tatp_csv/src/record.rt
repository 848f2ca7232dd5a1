//! The records of request files.

ghost use Rattle.csv.specs.Records.{fields_of};
ghost use Rattle.std.specs.Prelude.{◌≡◌, [], drop, get_or};
ghost use Rattle.tatp_text.specs.RequestRecord.{request_of, start_time_in, sync_of, get_subscriber_of, get_destination_of, get_access_of, update_subscriber_of, update_location_of, insert_call_of, delete_call_of};

use csv::ByteRecord;
use tatp_model::Request;
use tatp_text::{number_in, phone_in};

/// The most digits that a number in a record may have.
const FIELD_DIGITS: usize = 10;

/// The greatest number in a record.
const MOST: u64 = 4_294_967_295;

/// The request of a record, or the number of its first bad field, counted from 1: 0 where the name or the count of
/// fields is wrong.
pub fn request_of(row: &ByteRecord) -> Result<Request, u64>
    ensures { result ≡ request_of (fields_of row.now) }
{
    let name = field(row, 0);
    if name == b"GET_SUBSCRIBER_DATA".as_slice() {
        get_subscriber(row)
    } else if name == b"GET_NEW_DESTINATION".as_slice() {
        get_destination(row)
    } else if name == b"GET_ACCESS_DATA".as_slice() {
        get_access(row)
    } else if name == b"UPDATE_SUBSCRIBER_DATA".as_slice() {
        update_subscriber(row)
    } else if name == b"UPDATE_LOCATION".as_slice() {
        update_location(row)
    } else if name == b"INSERT_CALL_FORWARDING".as_slice() {
        insert_call(row)
    } else if name == b"DELETE_CALL_FORWARDING".as_slice() {
        delete_call(row)
    } else if name == b"SYNC".as_slice() {
        sync(row)
    } else {
        Err(0)
    }
}

fn get_subscriber(row: &ByteRecord) -> Result<Request, u64>
    ensures { result ≡ get_subscriber_of (drop 1 (fields_of row.now)) }
{
    if row.len() != 2 {
        return Err(0);
    }
    let s_id = number_in(field(row, 1), FIELD_DIGITS, 1, MOST).ok_or(2u64)?;
    Ok(Request::GetSubscriber { s_id })
}

#[tactic(auto, using(crate::proofs::Fields::fields_five))]
fn get_destination(row: &ByteRecord) -> Result<Request, u64>
    ensures { result ≡ get_destination_of (drop 1 (fields_of row.now)) }
{
    if row.len() != 5 {
        return Err(0);
    }
    let s_id = number_in(field(row, 1), FIELD_DIGITS, 1, MOST).ok_or(2u64)?;
    let sf_type = number_in(field(row, 2), FIELD_DIGITS, 1, 4).ok_or(3u64)?;
    let start_time = start_time_in(field(row, 3)).ok_or(4u64)?;
    let end_time = number_in(field(row, 4), FIELD_DIGITS, 1, 24).ok_or(5u64)?;
    Ok(Request::GetDestination {
        s_id,
        sf_type,
        start_time,
        end_time,
    })
}

fn get_access(row: &ByteRecord) -> Result<Request, u64>
    ensures { result ≡ get_access_of (drop 1 (fields_of row.now)) }
{
    if row.len() != 3 {
        return Err(0);
    }
    let s_id = number_in(field(row, 1), FIELD_DIGITS, 1, MOST).ok_or(2u64)?;
    let ai_type = number_in(field(row, 2), FIELD_DIGITS, 1, 4).ok_or(3u64)?;
    Ok(Request::GetAccess { s_id, ai_type })
}

#[tactic(auto, using(crate::proofs::Fields::fields_five))]
fn update_subscriber(row: &ByteRecord) -> Result<Request, u64>
    ensures { result ≡ update_subscriber_of (drop 1 (fields_of row.now)) }
{
    if row.len() != 5 {
        return Err(0);
    }
    let s_id = number_in(field(row, 1), FIELD_DIGITS, 1, MOST).ok_or(2u64)?;
    let bit_1 = number_in(field(row, 2), FIELD_DIGITS, 0, 1).ok_or(3u64)?;
    let sf_type = number_in(field(row, 3), FIELD_DIGITS, 1, 4).ok_or(4u64)?;
    let data_a = number_in(field(row, 4), FIELD_DIGITS, 0, 255).ok_or(5u64)?;
    Ok(Request::UpdateSubscriber {
        s_id,
        bit_1,
        sf_type,
        data_a,
    })
}

fn update_location(row: &ByteRecord) -> Result<Request, u64>
    ensures { result ≡ update_location_of (drop 1 (fields_of row.now)) }
{
    if row.len() != 3 {
        return Err(0);
    }
    let sub_nbr = phone_in(field(row, 1)).ok_or(2u64)?;
    let vlr = number_in(field(row, 2), FIELD_DIGITS, 0, MOST).ok_or(3u64)?;
    Ok(Request::UpdateLocation { sub_nbr, vlr })
}

#[tactic(auto, using(crate::proofs::Fields::fields_six))]
fn insert_call(row: &ByteRecord) -> Result<Request, u64>
    ensures { result ≡ insert_call_of (drop 1 (fields_of row.now)) }
{
    if row.len() != 6 {
        return Err(0);
    }
    let sub_nbr = phone_in(field(row, 1)).ok_or(2u64)?;
    let sf_type = number_in(field(row, 2), FIELD_DIGITS, 1, 4).ok_or(3u64)?;
    let start_time = start_time_in(field(row, 3)).ok_or(4u64)?;
    let end_time = number_in(field(row, 4), FIELD_DIGITS, 1, 24).ok_or(5u64)?;
    let numberx = phone_in(field(row, 5)).ok_or(6u64)?;
    Ok(Request::InsertCall {
        sub_nbr,
        sf_type,
        start_time,
        end_time,
        numberx,
    })
}

fn delete_call(row: &ByteRecord) -> Result<Request, u64>
    ensures { result ≡ delete_call_of (drop 1 (fields_of row.now)) }
{
    if row.len() != 4 {
        return Err(0);
    }
    let sub_nbr = phone_in(field(row, 1)).ok_or(2u64)?;
    let sf_type = number_in(field(row, 2), FIELD_DIGITS, 1, 4).ok_or(3u64)?;
    let start_time = start_time_in(field(row, 3)).ok_or(4u64)?;
    Ok(Request::DeleteCall {
        sub_nbr,
        sf_type,
        start_time,
    })
}

fn sync(row: &ByteRecord) -> Result<Request, u64>
    ensures { result ≡ sync_of (drop 1 (fields_of row.now)) }
{
    if row.len() > 1 {
        return Err(0);
    }
    Ok(Request::Sync)
}

// The hour at which a call forwarding starts.
fn start_time_in(text: &[u8]) -> Option<u64>
    ensures { result ≡ start_time_in text.now }
{
    let hour = number_in(text, FIELD_DIGITS, 0, 16)?;
    if hour == 0 || hour == 8 || hour == 16 {
        Some(hour)
    } else {
        None
    }
}

// The field at a place; an empty text where there is none.
fn field(row: &ByteRecord, place: usize) -> &[u8]
    ensures { result.now ≡ get_or (fields_of row.now) place [] }
{
    row.get(place).unwrap_or(b"")
}
