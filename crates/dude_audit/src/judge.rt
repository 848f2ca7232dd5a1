//! The audit of a printed run.

ghost use Rattle.dude_audit.specs.PrintedRun.{IsRunOf, IsVerdictOn};
ghost use Rattle.dude_audit.specs.declared.verdict.Verdict.TheVariants.{Yes};
ghost use Rattle.std.specs.Prelude.{◌≡◌, ◌≤◌, ◌↔◌, All, IfOk, length};
ghost use Rattle.tatp_model.specs.Database.{database_of, IsInOrder};
ghost use Rattle.tatp_model.specs.Files.{requests_in};
ghost use Rattle.tatp_model.specs.Request.{IsInRange};

use crate::claims::audit_claims;
use crate::verdict::Verdict;
use crate::{Reading, blank_claims, read_claims};
use std::alloc::{AllocError, Global};
use tatp_model::{Request, Tables};

/// Whether these bytes are those of a run of the files that one thread gives from these tables on, behind this number and
/// with at most `limit` call rows; or the line that the first reason names.
pub fn audit(
    alloc: Global,
    t: &Tables,
    limit: u64,
    number: u64,
    files: &[Vec<Request>],
    printed: &[u8],
) -> Result<Verdict, AllocError>
    requires in_range { All (All IsInRange) (requests_in files.now) }
    requires in_order { IsInOrder (database_of t.now) }
    requires room { length (database_of t.now).calls ≤ limit }
    ensures yes { IfOk result (λ v. (v ≡ Yes) ↔ IsRunOf number limit t.now files.now printed.now) }
    ensures verdict { IfOk result (IsVerdictOn number limit t.now files.now printed.now) }
{
    let blanks = blank_claims(alloc, files)?;
    match read_claims(alloc, &blanks, printed)? {
        Reading::Misformed { line } => Ok(Verdict::No { line }),
        Reading::Lines { claims, last } => {
            audit_claims(alloc, t, limit, number, &claims, last, printed)
        }
    }
}
