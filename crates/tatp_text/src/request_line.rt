//! How requests are written.

ghost use Rattle.std.specs.List.{flat_map};
ghost use Rattle.std.specs.Prelude.{◌≡◌, ◌∷◌, drop, decimal, OnOk, OnErr};
ghost use Rattle.tatp_model.specs.Request.{IsInRange};
ghost use Rattle.tatp_text.specs.Appending.{Adds};
ghost use Rattle.tatp_text.specs.Number.{phone_text};
ghost use Rattle.tatp_text.specs.RequestLine.{fields_text, request_fields, request_line};

use crate::number::{push_number, push_phone};
use std::alloc::AllocError;
use tatp_model::Request;

/// Appends the record of a request and LF. `out` is as it was where there is no memory.
pub fn write_request(request: &Request, out: &mut Vec<u8>) -> Result<(), AllocError>
    requires { IsInRange request.now }
    ensures ok { OnOk result (Adds out.old out.new (request_line request.now)) }
    ensures err { OnErr result (out.new.items ≡ out.old.items) }
{
    let mut line = Vec::from_slice(*out.allocator(), name_of(request))?;
    push_fields(request, &mut line)?;
    line.push(b'\n')?;
    out.extend_from_slice(&line)
}

// The name of a request's record.
fn name_of(request: &Request) -> &'static [u8]
    ensures { request_fields request.now ≡ result.now ∷ drop 1 (request_fields request.now) }
{
    match request {
        Request::GetSubscriber { .. } => b"GET_SUBSCRIBER_DATA",
        Request::GetDestination { .. } => b"GET_NEW_DESTINATION",
        Request::GetAccess { .. } => b"GET_ACCESS_DATA",
        Request::UpdateSubscriber { .. } => b"UPDATE_SUBSCRIBER_DATA",
        Request::UpdateLocation { .. } => b"UPDATE_LOCATION",
        Request::InsertCall { .. } => b"INSERT_CALL_FORWARDING",
        Request::DeleteCall { .. } => b"DELETE_CALL_FORWARDING",
        Request::Sync => b"SYNC",
    }
}

// The fields behind the name, each behind a comma.
fn push_fields(request: &Request, line: &mut Vec<u8>) -> Result<(), AllocError>
    ensures { OnOk result (Adds line.old line.new (fields_text request.now)) }
{
    match *request {
        Request::GetSubscriber { s_id } => push_numbers(&[s_id], line),
        Request::GetDestination {
            s_id,
            sf_type,
            start_time,
            end_time,
        } => push_numbers(&[s_id, sf_type, start_time, end_time], line),
        Request::GetAccess { s_id, ai_type } => push_numbers(&[s_id, ai_type], line),
        Request::UpdateSubscriber {
            s_id,
            bit_1,
            sf_type,
            data_a,
        } => push_numbers(&[s_id, bit_1, sf_type, data_a], line),
        Request::UpdateLocation { sub_nbr, vlr } => {
            push_phone_field(sub_nbr, line)?;
            push_numbers(&[vlr], line)
        }
        Request::InsertCall {
            sub_nbr,
            sf_type,
            start_time,
            end_time,
            numberx: target,
        } => {
            push_phone_field(sub_nbr, line)?;
            push_numbers(&[sf_type, start_time, end_time], line)?;
            push_phone_field(target, line)
        }
        Request::DeleteCall {
            sub_nbr,
            sf_type,
            start_time,
        } => {
            push_phone_field(sub_nbr, line)?;
            push_numbers(&[sf_type, start_time], line)
        }
        Request::Sync => Ok(()),
    }
}

// A phone number behind a comma.
fn push_phone_field(number: u64, line: &mut Vec<u8>) -> Result<(), AllocError>
    ensures { OnOk result (Adds line.old line.new (44 ∷ phone_text number)) }
{
    line.push(b',')?;
    push_phone(number, line)
}

// Numbers, each behind a comma.
fn push_numbers(numbers: &[u64], line: &mut Vec<u8>) -> Result<(), AllocError>
    ensures { OnOk result (Adds line.old line.new (flat_map (λ n. 44 ∷ decimal n) numbers.now)) }
{
    for number in numbers {
        line.push(b',')?;
        push_number(*number, line)?;
    }
    Ok(())
}
