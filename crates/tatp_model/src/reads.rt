//! The three requests that only read.

ghost use Rattle.tatp_model.specs.Database.{database_of, IsInOrder};
ghost use Rattle.tatp_model.specs.Transaction.{IsReply};

use crate::lookups;
use crate::reply::Reply;
use crate::request::Request;
use crate::tables::Tables;

pub(crate) fn get_subscriber(t: &Tables, s_id: u64) -> Reply
    requires { IsInOrder (database_of t.now) }
    ensures { IsReply (database_of t.now) (Request.GetSubscriber s_id) result }
{
    match lookups::subscriber(&t.subscribers, s_id) {
        Some(row) => Reply::Subscriber(row),
        None => Reply::Missing,
    }
}

pub(crate) fn get_access(t: &Tables, s_id: u64, ai_type: u64) -> Reply
    requires { IsInOrder (database_of t.now) }
    ensures { IsReply (database_of t.now) (Request.GetAccess s_id ai_type) result }
{
    match lookups::access(&t.access, s_id, ai_type) {
        Some(row) => Reply::Access(row.info),
        None => Reply::Missing,
    }
}

pub(crate) fn get_destination(
    t: &Tables,
    s_id: u64,
    sf_type: u64,
    start_time: u64,
    end_time: u64,
) -> Reply
    requires { IsInOrder (database_of t.now) }
    ensures { IsReply (database_of t.now)
        (Request.GetDestination s_id sf_type start_time end_time) result }
{
    if !lookups::has_active_facility(&t.facilities, s_id, sf_type) {
        return Reply::Missing;
    }
    let phones = lookups::destinations(&t.calls, s_id, sf_type, start_time, end_time);
    if phones.is_empty() {
        return Reply::Missing;
    }
    Reply::Destinations(phones)
}
