//! Waits that end.

use std::hint;
use std::sync::atomic::{AtomicU64, Ordering};

/// How many times a wait looks.
const MOST_TURNS: u64 = 100_000_000;

/// Waits for what other threads count.
#[derive(Drop)]
pub struct Waits {
    /// How many were over before the count had come.
    in_vain: AtomicU64,
}

impl Waits {
    /// None was in vain yet.
    pub fn new() -> Waits {
        Waits {
            in_vain: AtomicU64::new(0),
        }
    }

    /// Whether each count had come before the wait for it was over.
    pub fn were_met(&self) -> bool {
        self.in_vain.load(Ordering::SeqCst) == 0
    }

    /// Waits until this count is so great, or until the turns of the wait are over. Behind a wait in vain no other one waits.
    pub fn wait_for(&self, count: &AtomicU64, least: u64) {
        for _ in 0..MOST_TURNS {
            if count.load(Ordering::SeqCst) >= least || !self.were_met() {
                return;
            }
            hint::spin_loop();
        }
        self.in_vain.fetch_add(1, Ordering::SeqCst);
    }
}
