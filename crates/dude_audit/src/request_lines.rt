//! A request's line.

ghost use Rattle.dude_audit.specs.Claim.{claims_sync, may_write};
ghost use Rattle.dude_audit.specs.Reading.{IsReadAt, BeginsFor};
ghost use Rattle.std.specs.Prelude.{◌≡◌, ◌≤◌, ◌↔◌, true, IsTrue, IfSome, IfNone, length, drop, codes};

use crate::claim::Claim;
use crate::line::read_line;
use tatp_model::Request;

// Whether the request is of one of the four kinds that may write.
fn may_write(request: &Request) -> bool
    ensures { result ≡ may_write request.now }
{
    matches!(
        request,
        Request::UpdateSubscriber { .. }
            | Request::UpdateLocation { .. }
            | Request::InsertCall { .. }
            | Request::DeleteCall { .. }
    )
}

fn is_durable(text: &[u8]) -> bool
    ensures { IsTrue result ↔ (text.now ≡ codes "DURABLE") }
{
    text == b"DURABLE".as_slice()
}

fn is_ok(text: &[u8]) -> bool
    ensures { IsTrue result ↔ (text.now ≡ codes "OK") }
{
    text == b"OK".as_slice()
}

// Whether the text is `DURABLE` exactly if the request is a `SYNC`.
fn fits_request(blank: &Claim, text: &[u8]) -> bool
    ensures { IsTrue result ↔ ((claims_sync blank.now ≡ true) ↔ (text.now ≡ codes "DURABLE")) }
{
    is_durable(text) == blank.is_sync()
}

// Whether a line with this text says that the request wrote.
fn says_wrote(request: &Request, text: &[u8]) -> bool
    ensures { (result ≡ true) ↔ (IsTrue (may_write request.now) × (text.now ≡ codes "OK")) }
{
    may_write(request) && is_ok(text)
}

/// Reads the line of a request, with which the bytes from `at` on begin.
pub(crate) fn read_claim(printed: &[u8], at: usize, blank: &Claim) -> Option<Claim>
    requires { at ≤ length printed.now }
    ensures read { IfSome result (IsReadAt printed.now at blank.now) }
    ensures none { IfNone result (BeginsFor blank.now.request (drop at printed.now) → ⊥) }
{
    let line = read_line(&printed[at..])?;
    let text = &printed[at + line.from..at + line.to];
    if !fits_request(blank, text) {
        return None;
    }
    Some(Claim {
        file: blank.file,
        index: blank.index,
        request: blank.request,
        number: line.number,
        wrote: says_wrote(&blank.request, text),
        line: blank.line,
        from: at + line.from,
        to: at + line.to,
    })
}
