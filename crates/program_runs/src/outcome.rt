//! What a command left.

use pmem_fake::MemPmem;
use pmem_trait::{Call, Made, Medium};
use std::alloc::{AllocError, Global};
use tatp_model::Done;

/// What a command left.
#[derive(Drop)]
pub struct Outcome {
    /// The words on which it began.
    pub before: Vec<u64>,
    /// Lines that say how it ended.
    pub answer: String,
    pub medium: MemPmem,
    /// The requests done.
    pub done: Vec<Done>,
    /// The output of a command of the product.
    pub printed: Option<Vec<u8>>,
    /// Whether several files were run, each on a thread of its own.
    pub runs_several: bool,
    /// Whether replies were printed while others were still to come.
    pub streams: bool,
    /// Whether the next read of file `f` and the next write of the sink fail.
    pub next_fail: bool,
}

impl Outcome {
    /// What is left where there were no requests and no output.
    pub fn new(
        alloc: Global,
        before: &[u64],
        answer: String,
        medium: MemPmem,
    ) -> Result<Outcome, AllocError> {
        Ok(Outcome {
            before: before.to_vec(alloc)?,
            answer,
            medium,
            done: Vec::new(alloc),
            printed: None,
            runs_several: false,
            streams: false,
            next_fail: false,
        })
    }

    /// Whether the numbers of what was done depend on the turns of threads. Where none wrote they don't.
    pub fn depends_on_turns(&self) -> bool {
        self.runs_several && self.wrote_some()
    }

    /// Whether the order of the lines printed depends on the turns of threads.
    pub fn mixes_lines(&self) -> bool {
        self.streams && self.runs_several
    }

    /// Whether a request wrote.
    fn wrote_some(&self) -> bool {
        for done in &self.done {
            if done.wrote {
                return true;
            }
        }
        false
    }

    /// How many calls on the medium were made up to the first one that told a number, with it.
    pub fn first_told(&self) -> Option<u64> {
        let made = self.medium.made();
        for at in 0..made.len() {
            if matches!(made[at].call, Call::Tell(_)) {
                return Some(at as u64 + 1);
            }
        }
        None
    }

    /// How many calls on the medium were made up to this one, with it.
    pub fn calls_to(&self, call: Call) -> Option<u64> {
        let made = self.medium.made();
        for at in 0..made.len() {
            if made[at].call == call {
                return Some(at as u64 + 1);
            }
        }
        None
    }

    /// Whether so many calls were made on the medium, of which only the last one failed.
    pub fn failed_at(&self, call: u64) -> bool {
        self.medium.now() == call && self.medium.faults() == 1
    }

    /// The line that says how many requests were done, what was told last, and what was done to the medium.
    pub fn ending(&self, alloc: Global) -> Result<String, AllocError> {
        let done = self.done.len();
        let told = self.told(alloc)?;
        let words = self.words_left(alloc)?;
        let failed = if self.medium.faults() == 0 {
            ""
        } else if self.failed_at(self.medium.made().len() as u64) {
            ", only the last call on the medium failed"
        } else {
            ", the medium failed"
        };
        format!(in alloc; "done {done}, {told}, {words}{failed}\n")
    }

    /// What was told last; where several threads drew numbers, only whether it covers all that is done.
    pub fn told(&self, alloc: Global) -> Result<String, AllocError> {
        match self.medium.told() {
            None => String::from_str(alloc, "told nothing"),
            Some(number) if self.depends_on_turns() => {
                let covers = number >= last_of(&self.done).unwrap_or(0);
                String::from_str(alloc, if covers { "all told" } else { "not all told" })
            }
            Some(number) => format!(in alloc; "told {number}"),
        }
    }

    /// What was done to the words of the medium.
    fn words_left(&self, alloc: Global) -> Result<&'static str, AllocError> {
        if self.medium.now() == 0 {
            return Ok("the medium not called");
        }
        if only_reads(self.medium.made()) {
            return Ok("the medium only read");
        }
        if self.medium.content() != self.before.as_slice() {
            return Ok("other words");
        }
        let left = crash_at(alloc, &self.medium, self.medium.now(), true)?;
        Ok(if left == self.before {
            "the same words"
        } else {
            "the same words, but not after a crash"
        })
    }
}

/// The greatest number of these requests done.
pub fn last_of(done: &[Done]) -> Option<u64> {
    let mut last = None;
    for one in done {
        last = Some(one.number.max(last.unwrap_or(0)));
    }
    last
}

/// Whether all these calls are reads.
fn only_reads(made: &[Made]) -> bool {
    for made in made {
        if !matches!(made.call, Call::Read(_)) {
            return false;
        }
    }
    true
}

/// The image that a crash leaves at a moment up to now, each word with its settled value, or with the one first put since.
/// No words where the moment hasn't come.
pub fn crash_at(
    alloc: Global,
    medium: &MemPmem,
    moment: u64,
    later: bool,
) -> Result<Vec<u64>, AllocError> {
    let pick = if later { 1 } else { 0 };
    let picks = vec![in alloc; pick; medium.content().len()]?;
    match medium.images_at(alloc, moment, &picks) {
        Ok(image) => Ok(image),
        Err(_) => Ok(Vec::new(alloc)),
    }
}
