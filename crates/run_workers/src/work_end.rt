//! How the work on a file ends.

ghost use Rattle.run_workers.specs.WorkEnd.{end_by};
ghost use Rattle.std.specs.Prelude.{◌≡◌};

use request_attempts::unserved::Unserved;

/// How the work on a file ends.
#[derive(Clone, Copy, Debug, PartialEq, Eq)]
pub enum WorkEnd {
    /// All requests are done.
    Whole,
    /// A request was refused too often: it and the rest of the file are left.
    SetAside,
    NoMemory,
    /// The back met a fault.
    Device,
}

impl From<Unserved> for WorkEnd {
    ghost from_gives = { λ fault end. end ≡ end_by fault };

    fn from(fault: Unserved) -> WorkEnd {
        match fault {
            Unserved::Refused => WorkEnd::SetAside,
            Unserved::Device => WorkEnd::Device,
            Unserved::NoMemory => WorkEnd::NoMemory,
        }
    }
}

impl WorkEnd {
    ghost use Rattle.run_workers.specs.WorkEnd.{rank};
    ghost use Rattle.std.specs.Prelude.{◌≡◌, ◌⊎◌, ◌≤◌};

    /// The one of both that stops more of a run.
    pub fn worse(self, other: WorkEnd) -> WorkEnd
        ensures either { (result ≡ self) ⊎ (result ≡ other) }
        ensures first { rank self ≤ rank result }
        ensures second { rank other ≤ rank result }
    {
        if self.rank() < other.rank() {
            other
        } else {
            self
        }
    }

    fn rank(self) -> u8
        ensures { result ≡ rank self }
    {
        match self {
            WorkEnd::Whole => 0,
            WorkEnd::SetAside => 1,
            WorkEnd::NoMemory => 2,
            WorkEnd::Device => 3,
        }
    }
}
