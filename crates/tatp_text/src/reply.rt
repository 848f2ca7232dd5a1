//! How replies print. These functions append to a line that is being made: what they leave where there is no memory
//! is of no use.

ghost use Rattle.std.specs.List.{flat_map, join_with_byte};
ghost use Rattle.std.specs.Prelude.{◌≡◌, ◌∷◌, map, decimal, OnOk};
ghost use Rattle.tatp_model.specs.Numbers.{list_of};
ghost use Rattle.tatp_text.specs.Appending.{Adds};
ghost use Rattle.tatp_text.specs.Number.{phone_text};
ghost use Rattle.tatp_text.specs.Reply.{row_fields, access_fields, reply_text};

use crate::number::{push_number, push_phone};
use std::alloc::AllocError;
use tatp_model::{AccessData, Numbers, Reply, SubRow};

/// Appends a reply.
pub fn push_reply(reply: &Reply, line: &mut Vec<u8>) -> Result<(), AllocError>
    ensures { OnOk result (Adds line.old line.new (reply_text reply.now)) }
{
    match reply {
        Reply::Subscriber(row) => {
            line.extend_from_slice(b"OK ")?;
            push_row(row, line)
        }
        Reply::Destinations(phones) => {
            line.extend_from_slice(b"OK ")?;
            push_phones(list_of(phones), line)
        }
        Reply::Access(info) => {
            line.extend_from_slice(b"OK ")?;
            push_access(info, line)
        }
        Reply::Changed => line.extend_from_slice(b"OK"),
        Reply::Missing => line.extend_from_slice(b"NONE"),
        Reply::NoFacility => line.extend_from_slice(b"NOFAC"),
        Reply::Duplicate => line.extend_from_slice(b"DUP"),
        Reply::FullTable => line.extend_from_slice(b"FULL"),
        Reply::Durable => line.extend_from_slice(b"DURABLE"),
    }
}

// The fields of a subscriber's row.
fn push_row(row: &SubRow, line: &mut Vec<u8>) -> Result<(), AllocError>
    ensures { OnOk result (Adds line.old line.new (join_with_byte 44 (row_fields row.now))) }
{
    push_number(row.s_id, line)?;
    line.push(b',')?;
    push_phone(row.sub_nbr, line)?;
    push_more(&row.bits, line)?;
    push_more(&row.hexes, line)?;
    push_more(&row.bytes, line)?;
    line.push(b',')?;
    push_number(row.msc, line)?;
    line.push(b',')?;
    push_number(row.vlr, line)
}

// The fields of an access row's data.
fn push_access(info: &AccessData, line: &mut Vec<u8>) -> Result<(), AllocError>
    ensures { OnOk result (Adds line.old line.new (join_with_byte 44 (access_fields info.now))) }
{
    push_number(u64::from(info.data1), line)?;
    line.push(b',')?;
    push_number(u64::from(info.data2), line)?;
    line.push(b',')?;
    line.extend_from_slice(&info.data3)?;
    line.push(b',')?;
    line.extend_from_slice(&info.data4)
}

// Phone numbers, with commas between.
fn push_phones(phones: &[u64], line: &mut Vec<u8>) -> Result<(), AllocError>
    ensures { OnOk result (Adds line.old line.new (join_with_byte 44 (map phone_text phones.now))) }
{
    if let Some((first, others)) = phones.split_first() {
        push_phone(*first, line)?;
        for other in others {
            line.push(b',')?;
            push_phone(*other, line)?;
        }
    }
    Ok(())
}

// The list that the items hold.
fn list_of(phones: &Numbers) -> &[u64]
    ensures { result.now ≡ list_of phones.now }
{
    let items = phones.items.as_slice();
    match usize::try_from(phones.count) {
        Ok(count) => &items[..count.min(items.len())],
        Err(_) => items,
    }
}

// Numbers, each behind a comma.
fn push_more(numbers: &[u8], line: &mut Vec<u8>) -> Result<(), AllocError>
    ensures { OnOk result (Adds line.old line.new (flat_map (λ n. 44 ∷ decimal n) numbers.now)) }
{
    for number in numbers {
        line.push(b',')?;
        push_number(u64::from(*number), line)?;
    }
    Ok(())
}
