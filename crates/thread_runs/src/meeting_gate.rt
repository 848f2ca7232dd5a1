//! A gate at which one file waits for another.

use crate::waits::Waits;
use request_attempts::gate::Gate;
use std::sync::atomic::{AtomicU64, Ordering};

/// A gate that holds each call of file 0 up until a call of another file has passed it, or until the turns of its wait are over.
#[derive(Drop)]
pub struct MeetingGate {
    /// How many calls of other files have passed.
    passed: AtomicU64,
    /// The waits of file 0.
    waits: Waits,
}

impl MeetingGate {
    /// Nobody has passed yet.
    pub fn new() -> MeetingGate {
        MeetingGate {
            passed: AtomicU64::new(0),
            waits: Waits::new(),
        }
    }

    /// Whether another file has passed, and no wait was over before it had.
    pub fn was_met(&self) -> bool {
        self.passed.load(Ordering::SeqCst) > 0 && self.waits.were_met()
    }
}

impl Gate for MeetingGate {
    fn pass(&self, file: u64, _index: u64) {
        if file == 0 {
            self.waits.wait_for(&self.passed, 1);
        } else {
            self.passed.fetch_add(1, Ordering::SeqCst);
        }
    }
}
