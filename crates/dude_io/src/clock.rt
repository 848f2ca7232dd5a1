//! The moment of a medium in a file, and the count of its faults.

ghost use Rattle.std.specs.Prelude.{◌^◌, ◌<◌};

use pmem_trait::{Failed, FaultCount};

/// The moment of a medium, which counts its calls, and the count of its faults.
#[derive(Drop)]
pub struct Clock {
    pub now: u64,
    pub faults: FaultCount,
    ghost fits: { now < 2 ^ 64 },
}

impl Clock {
    ghost use Rattle.pmem_trait.specs.Faults.{faults_after};
    ghost use Rattle.std.specs.Prelude.{◌≡◌, ◌+◌, ◌-◌, ◌^◌, nat_lt, is_ok, false, if◌then◌else◌};

    pub(crate) fn new() -> Self
        ensures now { result.now ≡ 0 }
        ensures faults { result.faults.count ≡ 0 }
    {
        Clock {
            now: 0,
            faults: FaultCount::new(),
        }
    }

    /// Goes on by one moment. Where none is left, that is a fault, and the moment stays.
    pub(crate) fn tick(&mut self) -> Result<(), Failed>
        ensures ticks { is_ok result ≡ nat_lt self.old.now (2 ^ 64 - 1) }
        ensures now { self.new.now ≡ (if is_ok result then self.old.now + 1 else self.old.now) }
        ensures faults { self.new.faults.count ≡ faults_after (is_ok result) self.old.faults.count }
    {
        if self.now == u64::MAX {
            self.fault();
            return Err(Failed);
        }
        self.now += 1;
        Ok(())
    }

    /// Counts a fault.
    pub(crate) fn fault(&mut self)
        ensures now { self.new.now ≡ self.old.now }
        ensures faults { self.new.faults.count ≡ faults_after false self.old.faults.count }
    {
        self.faults.rise();
    }
}
