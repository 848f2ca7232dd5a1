//! The lines that a run of files has.

ghost use Rattle.dude_audit.specs.Blanks.{AreBlanks};
ghost use Rattle.dude_audit.specs.Claim.{claimed_request_of};
ghost use Rattle.std.specs.Prelude.{◌≡◌, IfOk};
ghost use Rattle.tatp_model.specs.Files.{requests_in};

use crate::claim::Claim;
use std::alloc::{AllocError, Global};
use tatp_model::Request;

// A line that says nothing yet.
fn blank(file: u64, index: u64, request: Request, line: u64) -> Claim
    ensures request { claimed_request_of result ≡ record {
      file = file;
      index = index;
      request = request;
    } }
    ensures line { result.line ≡ line }
{
    Claim {
        file,
        index,
        request,
        number: 0,
        wrote: false,
        line,
        from: 0,
        to: 0,
    }
}

/// A line for each request of the files, numbered from 1, which say nothing yet.
pub fn blank_claims(alloc: Global, files: &[Vec<Request>]) -> Result<Vec<Claim>, AllocError>
    ensures { IfOk result (λ blanks. AreBlanks (requests_in files.now) blanks.items) }
{
    let mut blanks = Vec::new(alloc);
    for k in 0..files.len() {
        for i in 0..files[k].len() {
            let line = blanks.len() as u64 + 1;
            blanks.push(blank(k as u64, i as u64, files[k][i], line))?;
        }
    }
    Ok(blanks)
}
