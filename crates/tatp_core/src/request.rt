//! A request is answered from the words of a home, and its writes are left pending in them.

ghost use Rattle.dude_base.specs.declared.limits.TheConstants.{PAGE};
ghost use Rattle.std.specs.Prelude.{◌≡◌, ◌*◌, [], false};
ghost use Rattle.tatp_core.specs.Reads.{IsRead};
ghost use Rattle.tatp_core.specs.Serves.{ServesRequest};
ghost use Rattle.tatp_model.specs.OneThread.{is_sync};
ghost use Rattle.tatp_model.specs.Request.{IsInRange};
ghost use Rattle.tatp_read.specs.Lookups.{AnswersRequest, CanServe};

use crate::delete::write_delete;
use crate::insert::write_insert;
use crate::location::write_location;
use crate::subscriber::write_subscriber;
use tatp_layout::Layout;
use tatp_model::{Reply, Request};
use tatp_read::{read_access, read_destination, read_subscriber};
use word_space::stop::Stop;
use word_space::words::Words;

/// Answers a request from the words, and leaves its writes pending in them. It isn't a `SYNC`.
pub fn run_request<W: Words>(lay: &Layout, w: &mut W, q: &Request) -> Result<Reply, Stop>
    requires no_sync { is_sync q.now ≡ false }
    requires in_range { IsInRange q.now }
    requires size { (W.sight w.old).count ≡ lay.now.pages * PAGE }
    requires no_writes { (W.sight w.old).writes ≡ [] }
    ensures { ServesRequest W.sight W.turns_into lay.now q.now result w.old w.new }
{
    match q {
        Request::UpdateSubscriber { .. } => write_subscriber(lay, w, q),
        Request::UpdateLocation { .. } => write_location(lay, w, q),
        Request::InsertCall { .. } => write_insert(lay, w, q),
        Request::DeleteCall { .. } => write_delete(lay, w, q),
        Request::Sync => unreachable!(),
        _ => read_request(lay, w, q),
    }
}

// Answers a request that only reads.
fn read_request<W: Words>(lay: &Layout, w: &mut W, q: &Request) -> Result<Reply, Stop>
    requires read { IsRead q.now }
    requires can { CanServe lay.now q.now (W.sight w.old) }
    ensures { AnswersRequest W.sight W.turns_into lay.now q.now result w.old w.new }
{
    match q {
        Request::GetSubscriber { .. } => read_subscriber(lay, w, q),
        Request::GetDestination { .. } => read_destination(lay, w, q),
        Request::GetAccess { .. } => read_access(lay, w, q),
        _ => unreachable!(),
    }
}
