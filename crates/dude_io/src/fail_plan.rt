//! Which calls on a thing in memory fail, and how many bytes a call moves.

ghost use Rattle.std.specs.Prelude.{◌≤◌};

use pmem_trait::FaultCount;

/// The plan of a thing in memory: how many calls were made on it, how many of them failed, which ones are to
/// fail, and how many bytes a call moves at most. Calls are counted from 1.
#[derive(Drop)]
pub struct FailPlan {
    pub made: u64,
    pub faults: FaultCount,
    pub fail: Vec<u64>,
    pub chunk: u64,
    ghost some: { 1 ≤ chunk },
}

impl FailPlan {
    ghost use Rattle.dude_io.specs.FailPlan.{is_next_to_fail, CountsCall};
    ghost use Rattle.pmem_trait.specs.Faults.{faults_after};
    ghost use Rattle.std.specs.Prelude.{◌≡◌, ◌≤◌, not, false};

    pub(crate) fn new(fail: Vec<u64>, chunk: u64) -> Self
        requires { 1 ≤ chunk }
        ensures made { result.made ≡ 0 }
        ensures faults { result.faults.count ≡ 0 }
        ensures fail { result.fail ≡ fail }
        ensures chunk { result.chunk ≡ chunk }
    {
        FailPlan {
            made: 0,
            faults: FaultCount::new(),
            fail,
            chunk,
        }
    }

    /// Counts a call, and says whether the plan fails it; then a fault is counted too.
    pub(crate) fn fails_next(&mut self) -> bool
        ensures fails { result ≡ is_next_to_fail self.old }
        ensures counts { CountsCall (not result) self.old self.new }
    {
        self.made = self.made.saturating_add(1);
        let fails = self.fail.contains(&self.made);
        if fails {
            self.count_fault();
        }
        fails
    }

    /// Counts a fault.
    pub(crate) fn count_fault(&mut self)
        ensures faults { self.new.faults.count ≡ faults_after false self.old.faults.count }
        ensures made { self.new.made ≡ self.old.made }
        ensures fail { self.new.fail ≡ self.old.fail }
        ensures chunk { self.new.chunk ≡ self.old.chunk }
    {
        self.faults.rise();
    }
}
