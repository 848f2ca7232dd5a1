//! An array at rest that stops at a planned call.

use word_space::flat::Flat;
use word_space::stop::Stop;
use word_space::words::Words;

/// An array at rest that answers a given Stop at each call after the first `calls` ones, but for `Wide`, since that depends on
/// the writes. It is made for tests of code over any `Words`.
#[derive(Drop)]
pub struct Stopping {
    /// The array with the reads and the writes that were made so far.
    pub flat: Flat,
    calls: u64,
    stop: Stop,
    /// The last Stop that was answered.
    pub stopped: Option<Stop>,
}

impl Stopping {
    /// The array, which answers `calls` calls itself before it stops.
    pub fn new(flat: Flat, calls: u64, stop: Stop) -> Self {
        Stopping {
            flat,
            calls,
            stop,
            stopped: None,
        }
    }
}

impl Words for Stopping {
    ghost use Rattle.home_runs.specs.Stoppings.{stopping_sight, stopping_well_formed, HasSameWords};
    ghost use Rattle.std.proofs.Common.{refl, ◌∙◌};

    ghost sight = { stopping_sight };

    ghost turns_into = { HasSameWords };

    ghost begins = { λ x. refl };

    ghost goes_on = { λ x y z first next. next ∙ first };

    ghost well_formed = { stopping_well_formed };

    fn len(&self) -> u64 {
        self.flat.len()
    }

    fn read(&mut self, at: u64) -> Result<u64, Stop> {
        if self.calls == 0 && self.stop != Stop::Wide {
            self.stopped = Some(self.stop);
            return Err(self.stop);
        }
        self.calls = self.calls.saturating_sub(1);
        match self.flat.read(at) {
            Ok(value) => Ok(value),
            Err(stop) => {
                self.stopped = Some(stop);
                Err(stop)
            }
        }
    }

    fn write(&mut self, at: u64, value: u64) -> Result<(), Stop> {
        if self.calls == 0 && self.stop != Stop::Wide && !self.flat.is_wide(at) {
            self.stopped = Some(self.stop);
            return Err(self.stop);
        }
        self.calls = self.calls.saturating_sub(1);
        match self.flat.write(at, value) {
            Ok(()) => Ok(()),
            Err(stop) => {
                self.stopped = Some(stop);
                Err(stop)
            }
        }
    }
}
