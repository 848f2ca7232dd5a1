//! A running sum of numbers, in their order.

use dude_base::write_list::WriteList;
use pmem_trait::Call;

/// By what the sum is multiplied before a number is added.
const FACTOR: u64 = 1_099_511_628_211;

/// The sum of the numbers that were added.
#[derive(Drop)]
pub struct Sum {
    total: u64,
}

impl Sum {
    /// No number was added.
    pub fn new() -> Self {
        Sum { total: 0 }
    }

    /// The sum as a number.
    pub fn total(&self) -> u64 {
        self.total
    }

    /// Adds a number.
    pub fn add(&mut self, number: u64) {
        self.total = self.total.wrapping_mul(FACTOR).wrapping_add(number);
    }

    /// Adds 1 where it holds, else 0.
    pub fn add_truth(&mut self, holds: bool) {
        self.add(u64::from(holds));
    }

    /// Adds whether there is a number, and that.
    pub fn add_maybe(&mut self, number: Option<u64>) {
        self.add_truth(number.is_some());
        if let Some(number) = number {
            self.add(number);
        }
    }

    /// Adds how many numbers there are, and each.
    pub fn add_numbers(&mut self, numbers: &[u64]) {
        self.add(numbers.len() as u64);
        for number in numbers {
            self.add(*number);
        }
    }

    /// Adds whether there is a pair, and that.
    pub fn add_pair(&mut self, pair: Option<(u64, u64)>) {
        self.add_truth(pair.is_some());
        if let Some((key, value)) = pair {
            self.add(key);
            self.add(value);
        }
    }

    /// Adds how many pairs there are, and each.
    pub fn add_pairs(&mut self, pairs: &[(u64, u64)]) {
        self.add(pairs.len() as u64);
        for (key, value) in pairs {
            self.add(*key);
            self.add(*value);
        }
    }

    /// Adds how many writes there are, and each.
    pub fn add_writes(&mut self, writes: &WriteList) {
        self.add(writes.len());
        for k in 0..writes.len() {
            let write = writes.get(k);
            self.add(write.at);
            self.add(write.value);
        }
    }

    /// Adds a call on the medium: its kind, and its numbers.
    pub fn add_call(&mut self, call: &Call) {
        match call {
            Call::Read(at) => self.add_kind(0, *at),
            Call::Put { at, value } => {
                self.add_kind(1, *at);
                self.add(*value);
            }
            Call::Flush(line) => self.add_kind(2, *line),
            Call::Fence => self.add(3),
            Call::Tell(number) => self.add_kind(4, *number),
        }
    }

    /// Adds a kind, and a number of that kind.
    pub fn add_kind(&mut self, kind: u64, number: u64) {
        self.add(kind);
        self.add(number);
    }
}
