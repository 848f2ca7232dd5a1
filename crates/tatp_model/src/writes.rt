//! The four requests that may write.

ghost use Rattle.std.specs.Prelude.{◌≡◌, IfOk, OnOk, OnErr};
ghost use Rattle.tatp_model.specs.Database.{database_of, IsInOrder, IsCallRow};
ghost use Rattle.tatp_model.specs.Request.{IsInRange};
ghost use Rattle.tatp_model.specs.Transaction.{IsReply, IsAfter, reply_to, reply_to_row, reply_to_removal, after_request, after_row, after_removal};

use crate::call_row::CallRow;
use crate::lookups;
use crate::reply::Reply;
use crate::request::Request;
use crate::tables::Tables;
use std::alloc::AllocError;

pub(crate) fn update_location(t: &mut Tables, sub_nbr: u64, vlr: u64) -> Reply
    requires { IsInOrder (database_of t.old) }
    ensures reply { IsReply (database_of t.old) (Request.UpdateLocation sub_nbr vlr) result }
    ensures after { IsAfter (database_of t.old)
        (Request.UpdateLocation sub_nbr vlr) (database_of t.new) }
{
    match lookups::index_of_phone(&t.subscribers, sub_nbr) {
        Some(at) => {
            t.subscribers[at].vlr = vlr;
            Reply::Changed
        }
        None => Reply::Missing,
    }
}

pub(crate) fn update_subscriber(
    t: &mut Tables,
    s_id: u64,
    bit_1: u64,
    sf_type: u64,
    data_a: u64,
) -> Reply
    requires in_range { IsInRange (Request.UpdateSubscriber s_id bit_1 sf_type data_a) }
    requires in_order { IsInOrder (database_of t.old) }
    ensures reply { IsReply (database_of t.old)
        (Request.UpdateSubscriber s_id bit_1 sf_type data_a) result }
    ensures after { IsAfter (database_of t.old)
        (Request.UpdateSubscriber s_id bit_1 sf_type data_a) (database_of t.new) }
{
    let Some(subscriber) = lookups::index_of_subscriber(&t.subscribers, s_id) else {
        return Reply::Missing;
    };
    let Some(facility) = lookups::index_of_facility(&t.facilities, s_id, sf_type) else {
        return Reply::Missing;
    };
    t.subscribers[subscriber].bits[0] = bit_1 as u8;
    t.facilities[facility].data_a = data_a as u8;
    Reply::Changed
}

pub(crate) fn insert_call(
    t: &mut Tables,
    limit: u64,
    sub_nbr: u64,
    sf_type: u64,
    start_time: u64,
    end_time: u64,
    numberx: u64,
) -> Result<Reply, AllocError>
    requires in_range { IsInRange (Request.InsertCall sub_nbr sf_type start_time end_time numberx) }
    requires in_order { IsInOrder (database_of t.old) }
    ensures reply { IfOk result (λ r. r ≡ reply_to limit (database_of t.old)
        (Request.InsertCall sub_nbr sf_type start_time end_time numberx)) }
    ensures after { OnOk result (database_of t.new ≡ after_request limit (database_of t.old)
        (Request.InsertCall sub_nbr sf_type start_time end_time numberx)) }
    ensures unchanged { OnErr result (database_of t.new ≡ database_of t.old) }
{
    let Some(subscriber) = lookups::by_phone(&t.subscribers, sub_nbr) else {
        return Ok(Reply::Missing);
    };
    let row = CallRow {
        s_id: subscriber.s_id,
        sf_type,
        start_time,
        end_time,
        numberx,
    };
    insert_row(t, limit, row)
}

/// Adds a call row, whose subscriber is there.
fn insert_row(t: &mut Tables, limit: u64, row: CallRow) -> Result<Reply, AllocError>
    requires in_range { IsCallRow row }
    requires in_order { IsInOrder (database_of t.old) }
    ensures reply { IfOk result (λ r. r ≡ reply_to_row limit (database_of t.old) row) }
    ensures after { OnOk result (database_of t.new ≡ after_row limit (database_of t.old) row) }
    ensures unchanged { OnErr result (database_of t.new ≡ database_of t.old) }
{
    if !lookups::has_facility(&t.facilities, row.s_id, row.sf_type) {
        return Ok(Reply::NoFacility);
    }
    if lookups::has_call(&t.calls, row.s_id, row.sf_type, row.start_time) {
        return Ok(Reply::Duplicate);
    }
    if limit <= t.calls.len() as u64 {
        return Ok(Reply::FullTable);
    }
    let at = lookups::index_of_key(&t.calls, &row);
    t.calls.insert(at, row)?;
    Ok(Reply::Changed)
}

pub(crate) fn delete_call(t: &mut Tables, sub_nbr: u64, sf_type: u64, start_time: u64) -> Reply
    requires { IsInOrder (database_of t.old) }
    ensures reply { IsReply (database_of t.old)
        (Request.DeleteCall sub_nbr sf_type start_time) result }
    ensures after { IsAfter (database_of t.old)
        (Request.DeleteCall sub_nbr sf_type start_time) (database_of t.new) }
{
    let Some(subscriber) = lookups::by_phone(&t.subscribers, sub_nbr) else {
        return Reply::Missing;
    };
    delete_row(t, subscriber.s_id, sf_type, start_time)
}

/// Removes a call row, whose subscriber is there.
fn delete_row(t: &mut Tables, s_id: u64, sf_type: u64, start_time: u64) -> Reply
    requires { IsInOrder (database_of t.old) }
    ensures reply { result ≡ reply_to_removal (database_of t.old) s_id sf_type start_time }
    ensures after { database_of t.new ≡ after_removal (database_of t.old) s_id sf_type start_time }
{
    match lookups::index_of_call(&t.calls, s_id, sf_type, start_time) {
        Some(at) => {
            t.calls.remove(at);
            Reply::Changed
        }
        None => Reply::Missing,
    }
}
