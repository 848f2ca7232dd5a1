//! The printer's end of a lane.

ghost use Rattle.std.specs.Prelude.{◌≡◌, ◌<◌, [], ◌∷◌, ◌++◌, length, IfSome, IfNone, IsSome};

use rtrb::Consumer;
use tatp_model::Done;

/// The end of a lane that the printer takes from.
#[derive(Drop)]
pub struct Drain {
    pub(crate) file: u64,
    pub(crate) consumer: Consumer<Done>,
}

impl Drain {
    ghost use Rattle.dude_stream.specs.Lanes.{IsSameDrain, known_to, received_by};

    /// The next reply; none exactly where the ring gives none. Nothing says that what was sent by now is given.
    pub fn next(&mut self) -> Option<Done>
        ensures lane { IsSameDrain self.old self.new }
        ensures some { IfSome result (λ done.
            received_by self.new ≡ received_by self.old ++ done ∷ []) }
        ensures none { IfNone result
            ((received_by self.new ≡ received_by self.old) × (known_to self.new ≡ [])) }
        ensures known { 0 < length (known_to self.old) → IsSome result }
    {
        self.consumer.pop().ok()
    }
}
