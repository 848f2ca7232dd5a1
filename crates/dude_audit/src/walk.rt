//! The replies along the printed order.

ghost use Rattle.dude_audit.specs.Claim.{IsWithin, text_of};
ghost use Rattle.dude_audit.specs.Walk.{TextsAlong, IsFirstWrong};
ghost use Rattle.std.specs.Prelude.{◌≡◌, ◌≤◌, ◌↔◌, IsTrue, All, IfOk, IfSome, IfNone, length};
ghost use Rattle.tatp_model.specs.Database.{database_of, IsInOrder};
ghost use Rattle.tatp_model.specs.Request.{IsInRange};

use crate::Claim;
use std::alloc::{AllocError, Global};
use tatp_model::Tables;
use tatp_model::step::step;
use tatp_text::push_reply;

// Whether the line has this text.
fn has_text(claim: &Claim, printed: &[u8], text: &[u8]) -> bool
    requires { IsWithin (length printed.now) claim.now }
    ensures { IsTrue result ↔ (text_of printed.now claim.now ≡ text.now) }
{
    &printed[claim.from..claim.to] == text
}

/// The place in the order of the first line whose text isn't that of one thread's reply.
pub(crate) fn first_wrong(
    alloc: Global,
    t: &mut Tables,
    limit: u64,
    order: &[Claim],
    printed: &[u8],
) -> Result<Option<usize>, AllocError>
    requires in_range { All (λ c. IsInRange c.request) order.now }
    requires within { All (IsWithin (length printed.now)) order.now }
    requires in_order { IsInOrder (database_of t.old) }
    requires room { length (database_of t.old).calls ≤ limit }
    ensures right { IfOk result (λ answer. IfNone answer
        (TextsAlong printed.now limit (database_of t.old) order.now)) }
    ensures wrong { IfOk result (λ answer. IfSome answer
        (IsFirstWrong printed.now limit (database_of t.old) order.now)) }
{
    let mut text = Vec::new(alloc);
    for k in 0..order.len() {
        let claim = order[k];
        let reply = step(alloc, t, limit, &claim.request)?;
        text.clear();
        push_reply(&reply, &mut text)?;
        if !has_text(&claim, printed, &text) {
            return Ok(Some(k));
        }
    }
    Ok(None)
}
