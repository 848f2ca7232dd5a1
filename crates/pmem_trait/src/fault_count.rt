//! How many calls on a thing outside failed.

ghost use Rattle.pmem_trait.specs.Faults.{up_to_last};
ghost use Rattle.std.specs.Prelude.{◌≡◌, ◌+◌, ◌^◌, ◌<◌};

/// How many calls on a thing outside failed. The count stays at its last value.
#[derive(Drop)]
pub struct FaultCount {
    pub count: u64,
    ghost fits: { count < 2 ^ 64 },
}

impl FaultCount {
    /// No fault so far.
    pub fn new() -> Self
        ensures { result.count ≡ 0 }
    {
        FaultCount { count: 0 }
    }

    /// Counts a fault.
    pub fn rise(&mut self)
        ensures { self.new.count ≡ up_to_last (self.old.count + 1) }
    {
        self.count = self.count.saturating_add(1);
    }
}
