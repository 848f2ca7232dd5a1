//! `INSERT_CALL_FORWARDING`.

ghost use Rattle.tatp_core.specs.Kinds.{IsInsertCall};
ghost use Rattle.tatp_core.specs.Serves.{ServesRequest};
ghost use Rattle.tatp_read.specs.Lookups.{CanServe};

use crate::phone::id_of;
use hash_table::put::Put;
use tatp_layout::keys::kind_key;
use tatp_layout::{Layout, put_call};
use tatp_model::{CallRow, Reply, Request};
use word_space::stop::Stop;
use word_space::words::Words;

/// Serves an `InsertCall`: stores the call row where its facility is there, its key isn't, and a record is free.
#[tactic(auto, using(crate::proofs::OfKind::is_insert))]
pub fn write_insert<W: Words>(lay: &Layout, w: &mut W, q: &Request) -> Result<Reply, Stop>
    requires kind { IsInsertCall q.now }
    requires can { CanServe lay.now q.now (W.sight w.old) }
    ensures { ServesRequest W.sight W.turns_into lay.now q.now result w.old w.new }
{
    let Request::InsertCall {
        sub_nbr,
        sf_type,
        start_time,
        end_time,
        numberx,
    } = *q
    else {
        unreachable!()
    };
    let Some(s_id) = id_of(lay, w, sub_nbr)? else {
        return Ok(Reply::Missing);
    };
    let Some(_) = lay.facilities().find(w, kind_key(s_id, sf_type))? else {
        return Ok(Reply::NoFacility);
    };
    let row = CallRow {
        s_id,
        sf_type,
        start_time,
        end_time,
        numberx,
    };
    match lay.calls().insert(w, row.key())? {
        Put::There(_) => Ok(Reply::Duplicate),
        Put::Full => Ok(Reply::FullTable),
        Put::Stored(at) => {
            put_call(lay, w, at, &row)?;
            Ok(Reply::Changed)
        }
    }
}
