//! The bundle of the next records of a rest.

ghost use Rattle.dude_base.specs.Writes.{IsWriteList};
ghost use Rattle.dude_base.specs.declared.limits.TheConstants.{MAX_WRITES};
ghost use Rattle.redo_record.specs.Record.{cells_for};
ghost use Rattle.run_threads.specs.Bundled.{BeginsWith, IsBundled, TakesNext};
ghost use Rattle.std.specs.Prelude.{◌≡◌, ◌<◌, ◌≤◌, All, length, true, false};

use dude_base::bundle::Bundle;
use dude_base::redo::Redo;
use redo_record::cells_for;
use tiny_stm::posted::Posted;

/// The bundle of the next records of a rest, up to but not including `end`. It goes to the ring of the first one's thread.
#[derive(Drop)]
pub(crate) struct OpenBundle {
    pub ring: u64,
    pub bundle: Bundle,
    pub end: usize,
}

impl OpenBundle {
    /// The bundle of one record, that at an index.
    fn begin(posted: &Posted, index: usize) -> OpenBundle
        requires { index < usize.MAX }
        ensures { BeginsWith posted.now index result }
    {
        OpenBundle {
            ring: posted.ring,
            bundle: Bundle::one(&posted.redo),
            end: index + 1,
        }
    }

    /// Takes the record of the next index, where it has the next number, the bundle takes it, and a ring of so many cells is
    /// long enough for the bundle then. Answers whether it did.
    fn join(&mut self, redo: &Redo, cells: u64) -> bool
        requires { self.old.end < usize.MAX }
        ensures taken { result ≡ true → TakesNext redo.now cells self.old self.new }
        ensures stays { result ≡ false → self.new ≡ self.old }
    {
        if cells < cells_for(self.bundle.places_with(redo)) || self.bundle.add(redo).is_err() {
            return false;
        }
        self.end += 1;
        true
    }

    /// The bundle of the records from an index on, as many as it takes.
    pub(crate) fn from(rest: &[Posted], from: usize, cells: u64) -> OpenBundle
        requires some { from < length rest.now }
        requires lists { All (λ q. IsWriteList q.redo.writes) rest.now }
        requires cells { cells_for MAX_WRITES ≤ cells }
        ensures { IsBundled cells rest.now from result }
    {
        let mut taken = OpenBundle::begin(&rest[from], from);
        for next in from + 1..rest.len() {
            if !taken.join(&rest[next].redo, cells) {
                return taken;
            }
        }
        taken
    }
}
