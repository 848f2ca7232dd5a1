//! All lines.

ghost use Rattle.dude_audit.specs.Reading.{IsReading};
ghost use Rattle.std.specs.Prelude.{IfOk};

use crate::claim::Claim;
use crate::last::read_last;
use crate::request_lines::read_claim;
use std::alloc::{AllocError, Global};

/// A printed run, read.
#[derive(Drop)]
pub enum Reading {
    /// A line for each request, and the last number.
    Lines { claims: Vec<Claim>, last: u64 },
    /// This line, from 1, is the first that isn't formed as it has to be.
    Misformed { line: u64 },
}

/// Reads a line for each request, and the last line.
pub fn read_claims(alloc: Global, blanks: &[Claim], printed: &[u8]) -> Result<Reading, AllocError>
    ensures { IfOk result (IsReading blanks.now printed.now) }
{
    let mut claims = Vec::new(alloc);
    let mut at = 0;
    for k in 0..blanks.len() {
        let Some(claim) = read_claim(printed, at, &blanks[k]) else {
            return Ok(Reading::Misformed { line: k as u64 + 1 });
        };
        claims.push(claim)?;
        at = claim.to + 1;
    }
    let Some(last) = read_last(&printed[at..]) else {
        return Ok(Reading::Misformed {
            line: blanks.len() as u64 + 1,
        });
    };
    if at + last.next < printed.len() {
        return Ok(Reading::Misformed {
            line: blanks.len() as u64 + 2,
        });
    }
    Ok(Reading::Lines {
        claims,
        last: last.number,
    })
}
