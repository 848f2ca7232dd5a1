//! Request files, and requests as they are written.

ghost use Rattle.std.specs.Prelude.{All};
ghost use Rattle.tatp_model.specs.Request.{IsInRange};

use crate::page::push_count;
use crate::stop::Stop;
use std::alloc::AllocError;
use tatp_csv::read_requests;
use tatp_model::Request;
use tatp_text::{TextFault, write_request};

/// The requests of a request file, or the record and the field that is bad.
pub fn read(text: &[u8], out: &mut Vec<u8>) -> Result<(), Stop> {
    let alloc = *out.allocator();
    match read_requests(alloc, text) {
        Ok(requests) => Ok(push_requests(&requests, out)?),
        Err(TextFault::Bad { row, field }) => {
            let line = format!(in alloc; "bad record {row} field {field}\n")?;
            Ok(out.extend_from_slice(line.as_bytes())?)
        }
        Err(TextFault::NoMemory) => Err(Stop::NoMemory),
    }
}

/// How many requests there are, and the line of each.
pub fn push_requests(requests: &[Request], out: &mut Vec<u8>) -> Result<(), AllocError>
    requires { All IsInRange requests.now }
{
    push_count("requests", requests.len() as u64, out)?;
    for request in requests {
        write_request(request, out)?;
    }
    Ok(())
}
