//! The bundle that a log still adds records to.

ghost use Rattle.log_numbered.specs.LogCalls.{Joins, with_joined};
ghost use Rattle.std.specs.Prelude.{◌≡◌, true, false};

use dude_base::bundle::Bundle;
use dude_base::redo::Redo;
use redo_record::cells_for;

/// A bundle that isn't persisted yet, and the ring that it goes to: that of its first record.
#[derive(Drop)]
pub struct OpenBundle {
    pub ring: u64,
    pub bundle: Bundle,
}

impl OpenBundle {
    /// Takes a record, where the bundle takes it and a ring of so many cells is long enough for the bundle then. Answers
    /// whether it did.
    pub fn join(&mut self, r: &Redo, cells: u64) -> bool
        ensures joined { result ≡ true → Joins cells self.old r.now }
        ensures new { result ≡ true → self.new ≡ with_joined self.old r.now }
        ensures refused { result ≡ false → Joins cells self.old r.now → ⊥ }
        ensures stays { result ≡ false → self.new ≡ self.old }
    {
        if cells < cells_for(self.bundle.places_with(r)) {
            return false;
        }
        match self.bundle.add(r) {
            Ok(()) => true,
            Err(_) => false,
        }
    }
}
