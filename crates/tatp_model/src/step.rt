//! The plain step.

ghost use Rattle.std.specs.Prelude.{◌≡◌, ◌≤◌, IfOk, OnOk, OnErr, length};
ghost use Rattle.tatp_model.specs.Database.{database_of, IsInOrder};
ghost use Rattle.tatp_model.specs.Request.{IsInRange};
ghost use Rattle.tatp_model.specs.Transaction.{FailsToInsert, Leaves, reply_to};

use crate::reply::Reply;
use crate::request::Request;
use crate::tables::Tables;
use crate::{reads, writes};
use std::alloc::{AllocError, Global};

/// Performs one request on the tables, where at most `limit` call rows may
/// stand: the measure for every other way of running a request. A row that is
/// added takes memory of the tables' own allocator.
pub fn step(_alloc: Global, t: &mut Tables, limit: u64, q: &Request) -> Result<Reply, AllocError>
    requires in_range { IsInRange q.now }
    requires in_order { IsInOrder (database_of t.old) }
    requires room { length (database_of t.old).calls ≤ limit }
    ensures reply { IfOk result (λ r. r ≡ reply_to limit (database_of t.old) q.now) }
    ensures after { OnOk result (Leaves limit (database_of t.old) q.now (database_of t.new)) }
    ensures in_order { IsInOrder (database_of t.new) }
    ensures room { length (database_of t.new).calls ≤ limit }
    ensures err { OnErr result (FailsToInsert q.now (database_of t.old) (database_of t.new)) }
{
    match *q {
        Request::GetSubscriber { s_id } => Ok(reads::get_subscriber(t, s_id)),
        Request::GetDestination {
            s_id,
            sf_type,
            start_time,
            end_time,
        } => Ok(reads::get_destination(t, s_id, sf_type, start_time, end_time)),
        Request::GetAccess { s_id, ai_type } => Ok(reads::get_access(t, s_id, ai_type)),
        Request::UpdateSubscriber {
            s_id,
            bit_1,
            sf_type,
            data_a,
        } => Ok(writes::update_subscriber(t, s_id, bit_1, sf_type, data_a)),
        Request::UpdateLocation { sub_nbr, vlr } => Ok(writes::update_location(t, sub_nbr, vlr)),
        Request::InsertCall {
            sub_nbr,
            sf_type,
            start_time,
            end_time,
            numberx,
        } => writes::insert_call(t, limit, sub_nbr, sf_type, start_time, end_time, numberx),
        Request::DeleteCall {
            sub_nbr,
            sf_type,
            start_time,
        } => Ok(writes::delete_call(t, sub_nbr, sf_type, start_time)),
        Request::Sync => Ok(Reply::Durable),
    }
}
