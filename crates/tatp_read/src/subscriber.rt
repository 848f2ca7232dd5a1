//! `GET_SUBSCRIBER_DATA`.

ghost use Rattle.tatp_read.specs.Kinds.{IsGetSubscriber};
ghost use Rattle.tatp_read.specs.Lookups.{AnswersRequest, CanServe};

use tatp_layout::{Layout, find_row};
use tatp_model::{Reply, Request, SubRow};
use word_space::stop::Stop;
use word_space::words::Words;

/// Answers a `GetSubscriber` from the words of the subscriber's chain and record.
pub fn read_subscriber<W: Words>(lay: &Layout, w: &mut W, q: &Request) -> Result<Reply, Stop>
    requires kind { IsGetSubscriber q.now }
    requires can { CanServe lay.now q.now (W.sight w.old) }
    ensures { AnswersRequest W.sight W.turns_into lay.now q.now result w.old w.new }
{
    let Request::GetSubscriber { s_id } = *q else {
        unreachable!()
    };
    match find_row::<SubRow, W>(lay, w, s_id)? {
        Some(row) => Ok(Reply::Subscriber(row)),
        None => Ok(Reply::Missing),
    }
}
