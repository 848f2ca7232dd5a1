//! `DELETE_CALL_FORWARDING`.

ghost use Rattle.tatp_core.specs.Kinds.{IsDeleteCall};
ghost use Rattle.tatp_core.specs.Serves.{ServesRequest};
ghost use Rattle.tatp_read.specs.Lookups.{CanServe};

use crate::phone::id_of;
use tatp_layout::Layout;
use tatp_layout::keys::first_call_key;
use tatp_model::{Reply, Request};
use word_space::stop::Stop;
use word_space::words::Words;

/// Serves a `DeleteCall`: takes the call row out of its table.
#[tactic(auto, using(crate::proofs::OfKind::is_delete))]
pub fn write_delete<W: Words>(lay: &Layout, w: &mut W, q: &Request) -> Result<Reply, Stop>
    requires kind { IsDeleteCall q.now }
    requires can { CanServe lay.now q.now (W.sight w.old) }
    ensures { ServesRequest W.sight W.turns_into lay.now q.now result w.old w.new }
{
    let Request::DeleteCall {
        sub_nbr,
        sf_type,
        start_time,
    } = *q
    else {
        unreachable!()
    };
    let Some(s_id) = id_of(lay, w, sub_nbr)? else {
        return Ok(Reply::Missing);
    };
    let key = first_call_key(s_id, sf_type) + start_time / 8;
    if lay.calls().remove(w, key)? {
        Ok(Reply::Changed)
    } else {
        Ok(Reply::Missing)
    }
}
