//! Places of a thread's boxes.

ghost use Rattle.std.specs.Prelude.{◌≡◌, ◌<◌};
ghost use Rattle.stm_turns.specs.Turns.{place_after};

/// The place behind this one, round the boxes.
pub fn next_place(place: u64, boxes: u64) -> u64
    requires { place < boxes }
    ensures { result ≡ place_after boxes place }
{
    if place + 1 < boxes {
        place + 1
    } else {
        place + 1 - boxes
    }
}
