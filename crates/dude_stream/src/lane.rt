//! A lane from one worker to the printer.

ghost use Rattle.dude_stream.specs.Lanes.{HasReceived, IsLane, IsNewLane, IsSameDrain, IsSameFeed, received_by, sent_by};
ghost use Rattle.std.specs.Prelude.{◌≡◌, ◌≤◌, ◌++◌, IfOk};

use crate::drain::Drain;
use crate::feed::Feed;
use rtrb::RingBuffer;
use std::alloc::{AllocError, Global};
use tatp_model::Done;

/// A lane from one worker to the printer: a ring of replies.
pub struct Lane;

impl Lane {
    /// An empty lane of the file, for `room` replies.
    pub fn new(alloc: Global, file: u64, room: u64) -> Result<(Feed, Drain), AllocError>
        requires some { 1 ≤ room }
        requires few { room ≤ 64 }
        ensures { IfOk result (λ ends. IsNewLane file room ends.0 ends.1) }
    {
        let (producer, consumer) = RingBuffer::new(alloc, room as usize)?;
        Ok((Feed { file, producer }, Drain { file, consumer }))
    }

    /// The replies that were sent and not received, in their order.
    pub fn rest(alloc: Global, feed: Feed, drain: Drain) -> Result<Vec<Done>, AllocError>
        requires { IsLane feed drain }
        ensures { IfOk result (λ rest. sent_by feed ≡ received_by drain ++ rest.items) }
    {
        let Feed { mut producer, .. } = feed;
        let Drain { mut consumer, .. } = drain;
        let count = consumer.slots_beside(&mut producer);
        let mut rest = Vec::with_capacity(alloc, count)?;
        for _reply in 0..count {
            rest.push(consumer.pop_known())?;
        }
        Ok(rest)
    }

    /// With both ends in one place: what was received is the first part of what was sent. Takes no memory.
    pub fn compare(feed: &mut Feed, drain: &mut Drain)
        requires { IsLane feed.old drain.old }
        ensures feed { IsSameFeed feed.old feed.new × (sent_by feed.new ≡ sent_by feed.old) }
        ensures drain { IsSameDrain drain.old drain.new
            × (received_by drain.new ≡ received_by drain.old) }
        ensures received { HasReceived (sent_by feed.old) (received_by drain.old) }
    {
        let _count = drain.consumer.slots_beside(&mut feed.producer);
    }
}
