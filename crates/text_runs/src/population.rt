//! The rows of a new database of one subscriber.

ghost use Rattle.std.specs.Prelude.{◌≡◌, IfOk, length};
ghost use Rattle.tatp_model.specs.Database.{database_of, IsInOrder};
ghost use Rattle.text_runs.specs.Rows.{first_access, first_facility, first_call};

use std::alloc::{AllocError, Global};
use tatp_model::{AccessData, AccessRow, CallRow, FacRow, SubRow, Tables};

/// The row of subscriber 1 in a new database.
pub const FIRST_ROW: SubRow = SubRow {
    s_id: 1,
    sub_nbr: 1,
    bits: [0, 1, 0, 1, 0, 1, 0, 1, 0, 1],
    hexes: [2, 3, 4, 5, 6, 7, 8, 9, 10, 11],
    bytes: [8, 9, 10, 11, 12, 13, 14, 15, 16, 17],
    msc: 1,
    vlr: 1_000_001,
};

/// An access row of subscriber 1.
pub const fn access(ai_type: u64, data1: u8, data2: u8, data3: [u8; 3], data4: [u8; 5]) -> AccessRow
    ensures { result ≡ first_access ai_type data1 data2 data3 data4 }
{
    AccessRow {
        s_id: 1,
        ai_type,
        info: AccessData {
            data1,
            data2,
            data3,
            data4,
        },
    }
}

const fn facility(sf_type: u64, error_cntrl: u8, data_a: u8, data_b: [u8; 5]) -> FacRow
    ensures { result ≡ first_facility sf_type error_cntrl data_a data_b }
{
    FacRow {
        s_id: 1,
        sf_type,
        is_active: 1,
        error_cntrl,
        data_a,
        data_b,
    }
}

const fn call(sf_type: u64, start_time: u64, end_time: u64, numberx: u64) -> CallRow
    ensures { result ≡ first_call sf_type start_time end_time numberx }
{
    CallRow {
        s_id: 1,
        sf_type,
        start_time,
        end_time,
        numberx,
    }
}

/// The tables of a new database of one subscriber.
pub fn one_subscriber(alloc: Global) -> Result<Tables, AllocError>
    ensures in_order { IfOk result (λ t. IsInOrder (database_of t)) }
    ensures calls { IfOk result (λ t. length (database_of t).calls ≡ 5) }
{
    Ok(Tables {
        subscribers: Vec::from_slice(alloc, &[FIRST_ROW])?,
        access: Vec::from_slice(
            alloc,
            &[
                access(1, 2, 1, *b"CDE", *b"DEFGH"),
                access(2, 3, 2, *b"DEF", *b"FGHIJ"),
            ],
        )?,
        facilities: Vec::from_slice(
            alloc,
            &[
                facility(1, 3, 4, *b"EFGHI"),
                facility(2, 5, 5, *b"HIJKL"),
                facility(3, 7, 6, *b"KLMNO"),
            ],
        )?,
        calls: Vec::from_slice(
            alloc,
            &[
                call(1, 0, 2, 110),
                call(1, 8, 11, 111),
                call(2, 0, 3, 120),
                call(2, 8, 12, 121),
                call(2, 16, 21, 122),
            ],
        )?,
    })
}
