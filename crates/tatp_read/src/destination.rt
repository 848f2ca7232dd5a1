//! `GET_NEW_DESTINATION`.

ghost use Rattle.dude_base.specs.declared.limits.TheConstants.{PAGE};
ghost use Rattle.std.specs.Prelude.{◌≡◌, ◌*◌};
ghost use Rattle.tatp_model.specs.Ranges.{IsId, IsKind, IsStartTime};
ghost use Rattle.tatp_read.specs.Kinds.{IsGetDestination};
ghost use Rattle.tatp_read.specs.Lookups.{AnswersRequest, CanServe, FindsActive, FindsPhone, FindsPhones, call_reads, kind_reads};
ghost use Rattle.word_space.specs.Steps.{AnswersSeen, UsesWords};

use tatp_layout::keys::{first_call_key, kind_key};
use tatp_layout::{Layout, find_row};
use tatp_model::{CallRow, FacRow, Numbers, Reply, Request};
use word_space::stop::Stop;
use word_space::words::Words;

/// Answers a `GetDestination` from the words of the facility's chain and record, and of those of at
/// most three call rows.
pub fn read_destination<W: Words>(lay: &Layout, w: &mut W, q: &Request) -> Result<Reply, Stop>
    requires kind { IsGetDestination q.now }
    requires can { CanServe lay.now q.now (W.sight w.old) }
    ensures { AnswersRequest W.sight W.turns_into lay.now q.now result w.old w.new }
{
    let Request::GetDestination {
        s_id,
        sf_type,
        start_time,
        end_time,
    } = *q
    else {
        unreachable!()
    };
    if !has_active_facility(lay, w, s_id, sf_type)? {
        return Ok(Reply::Missing);
    }
    let phones = destinations(lay, w, s_id, sf_type, start_time, end_time)?;
    if phones.is_empty() {
        return Ok(Reply::Missing);
    }
    Ok(Reply::Destinations(phones))
}

// Whether the facility is there, and active.
fn has_active_facility<W: Words>(
    lay: &Layout,
    w: &mut W,
    s_id: u64,
    sf_type: u64,
) -> Result<bool, Stop>
    requires id { IsId s_id }
    requires kind { IsKind sf_type }
    requires size { (W.sight w.old).count ≡ lay.now.pages * PAGE }
    ensures uses { UsesWords W.sight W.turns_into (kind_reads lay.now) 0 result w.old w.new }
    ensures active { AnswersSeen W.sight result w.old w.new (FindsActive lay.now s_id sf_type) }
{
    match find_row::<FacRow, W>(lay, w, kind_key(s_id, sf_type))? {
        Some(row) => Ok(row.is_active == 1),
        None => Ok(false),
    }
}

// The phone numbers to which the facility's calls from `start_time` to `end_time` are forwarded.
fn destinations<W: Words>(
    lay: &Layout,
    w: &mut W,
    s_id: u64,
    sf_type: u64,
    start_time: u64,
    end_time: u64,
) -> Result<Numbers, Stop>
    requires id { IsId s_id }
    requires kind { IsKind sf_type }
    requires start { IsStartTime start_time }
    requires size { (W.sight w.old).count ≡ lay.now.pages * PAGE }
    ensures uses { UsesWords W.sight W.turns_into (3 * call_reads lay.now) 0 result w.old w.new }
    ensures numbers { AnswersSeen W.sight result w.old w.new
        (FindsPhones lay.now s_id sf_type start_time end_time) }
{
    let first = first_call_key(s_id, sf_type);
    let mut phones = Numbers::new();
    for key in first..first + start_time / 8 + 1 {
        if let Some(phone) = destination(lay, w, key, end_time)? {
            phones.push(phone);
        }
    }
    Ok(phones)
}

// The phone number of the call row with this key, where that row ends after `end_time`.
fn destination<W: Words>(
    lay: &Layout,
    w: &mut W,
    key: u64,
    end_time: u64,
) -> Result<Option<u64>, Stop>
    requires size { (W.sight w.old).count ≡ lay.now.pages * PAGE }
    ensures uses { UsesWords W.sight W.turns_into (call_reads lay.now) 0 result w.old w.new }
    ensures numbers { AnswersSeen W.sight result w.old w.new (FindsPhone lay.now key end_time) }
{
    let Some(row) = find_row::<CallRow, W>(lay, w, key)? else {
        return Ok(None);
    };
    if end_time < row.end_time {
        Ok(Some(row.numberx))
    } else {
        Ok(None)
    }
}
