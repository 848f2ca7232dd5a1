//! How many words there are of each kind, and the setup.

ghost use Rattle.std.specs.Prelude.{◌≡◌, ◌*◌};

use crate::event_table::EventTable;
use crate::slot_rule::SlotRule;

impl<S, X, K, P: SlotRule<S, X, K>> EventTable<S, X, K, P> {
    /// How many threads may take part.
    pub fn threads(&self) -> u64
        ensures { result ≡ self.now.setup.threads }
    {
        self.threads
    }

    /// How many locks there are.
    pub fn locks(&self) -> u64
        ensures { result ≡ self.now.setup.locks }
    {
        self.locks
    }

    /// How many pages there are.
    pub fn pages(&self) -> u64
        ensures { result ≡ self.now.setup.pages }
    {
        self.pages
    }

    /// How many frames there are.
    pub fn frames(&self) -> u64
        ensures { result ≡ self.now.setup.frames }
    {
        self.frames
    }

    /// How many boxes there are. The setup is that of the key.
    pub fn box_count(&self) -> usize
        ensures count { result ≡ self.now.setup.threads * self.now.setup.boxes }
        ensures setup { self.now.setup ≡ P.setup self.now.key }
    {
        (self.threads * self.boxes) as usize
    }

    /// How many boxes each thread has.
    pub fn boxes(&self) -> u64
        ensures { result ≡ self.now.setup.boxes }
    {
        self.boxes
    }
}
