//! `GET_ACCESS_DATA`.

ghost use Rattle.tatp_read.specs.Kinds.{IsGetAccess};
ghost use Rattle.tatp_read.specs.Lookups.{AnswersRequest, CanServe};

use tatp_layout::keys::kind_key;
use tatp_layout::{Layout, find_row};
use tatp_model::{AccessRow, Reply, Request};
use word_space::stop::Stop;
use word_space::words::Words;

/// Answers a `GetAccess` from the words of one chain and of the record.
pub fn read_access<W: Words>(lay: &Layout, w: &mut W, q: &Request) -> Result<Reply, Stop>
    requires can { CanServe lay.now q.now (W.sight w.old) }
    requires kind { IsGetAccess q.now }
    ensures { AnswersRequest W.sight W.turns_into lay.now q.now result w.old w.new }
{
    let Request::GetAccess { s_id, ai_type } = *q else {
        unreachable!()
    };
    match find_row::<AccessRow, W>(lay, w, kind_key(s_id, ai_type))? {
        Some(row) => Ok(Reply::Access(row.info)),
        None => Ok(Reply::Missing),
    }
}
