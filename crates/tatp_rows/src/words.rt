//! The words of the records of rows.

ghost use Rattle.std.specs.Prelude.{◌≡◌};
ghost use Rattle.tatp_layout.specs.Records.{access_form, call_form, facility_form, number_form, subscriber_form};
ghost use Rattle.tatp_model.specs.Database.{IsAccessRow, IsCallRow, IsFacRow, IsSubRow};
ghost use Rattle.tatp_rows.specs.Filling.{entry_of};

use crate::packing::packed;
use tatp_model::{AccessRow, CallRow, FacRow, SubRow};

/// The words of a subscriber's record, without the link.
pub fn subscriber_entry(row: &SubRow) -> [u64; 7]
    requires { IsSubRow row.now }
    ensures { result ≡ entry_of subscriber_form row.now }
{
    [
        row.s_id,
        packed(2, &row.bits) + 1_024 * packed(16, &row.hexes),
        packed(256, &row.bytes[..8]),
        packed(256, &row.bytes[8..]),
        row.msc,
        row.vlr,
        row.sub_nbr,
    ]
}

/// The words of the record that finds a subscriber by its phone number.
pub fn number_entry(row: &SubRow) -> [u64; 2]
    ensures { result ≡ entry_of number_form row.now }
{
    [row.sub_nbr, row.s_id]
}

/// The words of an access record.
pub fn access_entry(row: &AccessRow) -> [u64; 3]
    requires { IsAccessRow row.now }
    ensures { result ≡ entry_of access_form row.now }
{
    let [letter1, letter2, letter3] = row.info.data3;
    [
        4 * row.s_id + row.ai_type - 1,
        packed(
            256,
            &[row.info.data1, row.info.data2, letter1, letter2, letter3],
        ),
        packed(256, &row.info.data4),
    ]
}

/// The words of a facility's record.
pub fn facility_entry(row: &FacRow) -> [u64; 3]
    requires { IsFacRow row.now }
    ensures { result ≡ entry_of facility_form row.now }
{
    [
        4 * row.s_id + row.sf_type - 1,
        packed(256, &[row.is_active, row.error_cntrl, row.data_a]),
        packed(256, &row.data_b),
    ]
}

/// The words of a call row's record.
pub fn call_entry(row: &CallRow) -> [u64; 3]
    requires { IsCallRow row.now }
    ensures { result ≡ entry_of call_form row.now }
{
    [row.key(), row.end_time, row.numberx]
}
