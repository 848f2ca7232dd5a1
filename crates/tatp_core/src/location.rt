//! `UPDATE_LOCATION`.

ghost use Rattle.tatp_core.specs.Kinds.{IsUpdateLocation};
ghost use Rattle.tatp_core.specs.Serves.{ServesRequest};
ghost use Rattle.tatp_read.specs.Lookups.{CanServe};

use crate::phone::id_of;
use tatp_layout::{Layout, put_vlr};
use tatp_model::{Reply, Request};
use word_space::stop::Stop;
use word_space::words::Words;

/// Serves an `UpdateLocation`: writes the subscriber's location, also where it is the same.
#[tactic(auto, using(crate::proofs::OfKind::is_location))]
pub fn write_location<W: Words>(lay: &Layout, w: &mut W, q: &Request) -> Result<Reply, Stop>
    requires kind { IsUpdateLocation q.now }
    requires can { CanServe lay.now q.now (W.sight w.old) }
    ensures { ServesRequest W.sight W.turns_into lay.now q.now result w.old w.new }
{
    let Request::UpdateLocation { sub_nbr, vlr } = *q else {
        unreachable!()
    };
    let Some(s_id) = id_of(lay, w, sub_nbr)? else {
        return Ok(Reply::Missing);
    };
    let Some(at) = lay.subscribers().find(w, s_id)? else {
        return Ok(Reply::Missing);
    };
    put_vlr(lay, w, at, vlr)?;
    Ok(Reply::Changed)
}
