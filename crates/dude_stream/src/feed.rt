//! The worker's end of a lane.

ghost use Rattle.rtrb.specs.Ring.{known_free, producer_capacity, sent};
ghost use Rattle.std.specs.Prelude.{◌≡◌, ◌+◌, ◌<◌, ◌≤◌, [], ◌∷◌, ◌++◌, length, IsTrue, IsFalse};

use rtrb::Producer;
use tatp_model::Done;

/// The end of a lane that a worker sends into.
#[derive(Drop)]
pub struct Feed {
    pub(crate) file: u64,
    pub(crate) producer: Producer<Done>,
    ghost counted: { producer_capacity producer ≤ known_free producer + length (sent producer) },
}

impl Feed {
    ghost use Rattle.dude_stream.specs.Lanes.{IsSameFeed, free_for, room_of, sent_by};

    /// Sends a reply. False exactly where the ring had no place for it, and then nothing is sent: never before as many
    /// replies were sent as the lane has room for.
    pub fn send(&mut self, done: &Done) -> bool
        ensures lane { IsSameFeed self.old self.new }
        ensures sent { IsTrue result → sent_by self.new ≡ sent_by self.old ++ done.now ∷ [] }
        ensures full { IsFalse result
            → (sent_by self.new ≡ sent_by self.old) × (free_for self.new ≡ 0) }
        ensures free { 0 < free_for self.old → IsTrue result }
        ensures room { length (sent_by self.old) < room_of self.old → IsTrue result }
    {
        self.producer.push(*done).is_ok()
    }
}
