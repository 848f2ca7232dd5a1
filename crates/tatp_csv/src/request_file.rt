//! Request files.

ghost use Rattle.std.specs.Prelude.{◌≡◌, All, Ok, IfOk, IfErr};
ghost use Rattle.tatp_csv.specs.RequestFile.{requests_of, HasCause};
ghost use Rattle.tatp_model.specs.Request.{IsInRange};

use crate::record::request_of;
use crate::rows::{next_row, rows_of};
use csv::ByteRecord;
use std::alloc::Global;
use tatp_model::Request;
use tatp_text::{MAX_BYTES, MAX_RECORDS, TextFault};

/// Reads a request file, in time that grows with its bytes.
pub fn read_requests(alloc: Global, bytes: &[u8]) -> Result<Vec<Request>, TextFault>
    ensures read { IfOk result (λ requests. requests_of bytes.now ≡ Ok requests.items) }
    ensures ranges { IfOk result (λ requests. All IsInRange requests.items) }
    ensures refused { IfErr result (HasCause bytes.now) }
{
    if bytes.len() > MAX_BYTES {
        return Err(TextFault::Bad { row: 0, field: 0 });
    }
    let mut reader = rows_of(alloc, bytes);
    let mut row = ByteRecord::new(alloc);
    let mut requests = Vec::new(alloc);
    for before in 0..MAX_RECORDS {
        if !next_row(&mut reader, &mut row)? {
            return Ok(requests);
        }
        match request_of(&row) {
            Ok(request) => requests.push(request)?,
            Err(field) => {
                return Err(TextFault::Bad {
                    row: before + 1,
                    field,
                });
            }
        }
    }
    if next_row(&mut reader, &mut row)? {
        return Err(TextFault::Bad {
            row: MAX_RECORDS + 1,
            field: 0,
        });
    }
    Ok(requests)
}
