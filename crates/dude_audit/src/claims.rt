//! The verdict on the lines of a printed run.

ghost use Rattle.dude_audit.specs.Claim.{claims_sync};
ghost use Rattle.dude_audit.specs.Order.{AreApart, AreOfRun, IsClaimOrder};
ghost use Rattle.dude_audit.specs.Verdict.{IsLastOf, HasVerdict};
ghost use Rattle.std.specs.Prelude.{◌≡◌, ◌≤◌, ◌↔◌, AllPairs, IfOk, IsTrue, not, filter, length};
ghost use Rattle.tatp_model.specs.Database.{database_of, IsInOrder};

use crate::Claim;
use crate::copy::copied;
use crate::order::put_in_printed_order;
use crate::rules::first_broken;
use crate::verdict::Verdict;
use crate::walk::first_wrong;
use std::alloc::{AllocError, Global};
use tatp_model::Tables;

// Whether the last number is from the first one on and no line's number is over it.
fn is_last(claims: &[Claim], first: u64, last: u64) -> bool
    ensures { IsTrue result ↔ IsLastOf first claims.now last }
{
    first <= last && claims.iter().all(|c| c.number <= last)
}

// The lines but those of `SYNC`.
fn asked_of(alloc: Global, claims: &[Claim]) -> Result<Vec<Claim>, AllocError>
    ensures { IfOk result (λ asked. asked.items ≡ filter (λ c. not (claims_sync c)) claims.now) }
{
    let mut asked = Vec::from_slice(alloc, claims)?;
    asked.retain(|c| !c.is_sync());
    Ok(asked)
}

// The lines but those of `SYNC`, in printed order.
fn order_of(alloc: Global, claims: &[Claim]) -> Result<Vec<Claim>, AllocError>
    requires { AllPairs AreApart claims.now }
    ensures { IfOk result (λ order. IsClaimOrder claims.now order.items) }
{
    let mut order = asked_of(alloc, claims)?;
    put_in_printed_order(&mut order);
    Ok(order)
}

/// The verdict on the lines of a printed run.
pub(crate) fn audit_claims(
    alloc: Global,
    start: &Tables,
    limit: u64,
    first: u64,
    claims: &[Claim],
    last: u64,
    printed: &[u8],
) -> Result<Verdict, AllocError>
    requires in_order { IsInOrder (database_of start.now) }
    requires room { length (database_of start.now).calls ≤ limit }
    requires lines { AreOfRun (length printed.now) claims.now }
    ensures { IfOk result
        (HasVerdict first limit (database_of start.now) printed.now claims.now last) }
{
    if let Some(at) = first_broken(alloc, claims, first, last)? {
        return Ok(Verdict::No {
            line: claims[at].line,
        });
    }
    if !is_last(claims, first, last) {
        return Ok(Verdict::No {
            line: claims.len() as u64 + 1,
        });
    }
    let order = order_of(alloc, claims)?;
    let mut tables = copied(alloc, start)?;
    match first_wrong(alloc, &mut tables, limit, &order, printed)? {
        Some(at) => Ok(Verdict::No {
            line: order[at].line,
        }),
        None => Ok(Verdict::Yes),
    }
}
