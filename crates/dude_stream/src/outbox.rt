//! What a worker has sent into its lane of what it has done.

ghost use Rattle.std.specs.Prelude.{◌≤◌};

use crate::feed::Feed;
use tatp_model::Done;

/// A worker's end of its lane, into which it sent the first so many of the requests that it has done.
#[derive(Drop)]
pub struct Outbox {
    pub feed: Feed,
    pub sent: usize,
}

impl Outbox {
    ghost use Rattle.dude_stream.specs.Lanes.{IsSameFeed};
    ghost use Rattle.dude_stream.specs.Outboxes.{HasSent, SentAll};

    /// Sends as many of the requests done, in order, as the lane takes. It never waits for room.
    pub fn send_from(&mut self, done: &[Done])
        requires sent { HasSent done.now self.old }
        ensures lane { IsSameFeed self.old.feed self.new.feed }
        ensures sent { HasSent done.now self.new }
        ensures later { self.old.sent ≤ self.new.sent }
        ensures all { SentAll done.now self.new }
    {
        'requests: while self.sent < done.len() {
            if !self.feed.send(&done[self.sent]) {
                return;
            }
            self.sent += 1;
        }
    }
}
