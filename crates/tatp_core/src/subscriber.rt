//! `UPDATE_SUBSCRIBER_DATA`.

ghost use Rattle.tatp_core.specs.Kinds.{IsUpdateSubscriber};
ghost use Rattle.tatp_core.specs.Serves.{ServesRequest};
ghost use Rattle.tatp_read.specs.Lookups.{CanServe};

use tatp_layout::keys::kind_key;
use tatp_layout::{Layout, put_bit1, put_data_a};
use tatp_model::{Reply, Request};
use word_space::stop::Stop;
use word_space::words::Words;

/// Serves an `UpdateSubscriber`: writes a bit of the subscriber and a byte of its facility where both are there,
/// also where they are the same.
#[tactic(auto, using(crate::proofs::OfKind::is_update))]
pub fn write_subscriber<W: Words>(lay: &Layout, w: &mut W, q: &Request) -> Result<Reply, Stop>
    requires kind { IsUpdateSubscriber q.now }
    requires can { CanServe lay.now q.now (W.sight w.old) }
    ensures { ServesRequest W.sight W.turns_into lay.now q.now result w.old w.new }
{
    let Request::UpdateSubscriber {
        s_id,
        bit_1,
        sf_type,
        data_a,
    } = *q
    else {
        unreachable!()
    };
    let Some(subscriber) = lay.subscribers().find(w, s_id)? else {
        return Ok(Reply::Missing);
    };
    let Some(facility) = lay.facilities().find(w, kind_key(s_id, sf_type))? else {
        return Ok(Reply::Missing);
    };
    put_bit1(lay, w, subscriber, bit_1)?;
    put_data_a(lay, w, facility, data_a)?;
    Ok(Reply::Changed)
}
