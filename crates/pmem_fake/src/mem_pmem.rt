//! A medium in memory, with the images that a crash may leave at each moment.

ghost use Rattle.pmem_fake.specs.History.{AreContent};
ghost use Rattle.std.specs.Prelude.{◌≡◌, length};

use crate::call_history::CallHistory;
use crate::image_fault::ImageFault;
use crate::replay::{image_after, last_told_by};
use pmem_trait::{Call, Failed, Made, Medium};
use std::alloc::{AllocError, Global};

/// A new medium, where there is memory for it.
pub type NewMedium = Result<MemPmem, AllocError>;

/// Persistent memory in memory, with its whole history.
#[derive(Drop)]
pub struct MemPmem {
    start: Vec<u64>,
    words: Vec<u64>,
    history: CallHistory,
    ghost same_len: { length words.items ≡ length start.items },
    ghost content: { AreContent history.late history.calls.items start.items words.items },
}

impl MemPmem {
    ghost use Rattle.pmem_fake.specs.Fakes.{sight, later_fault, IsLater, IsNewMedium, IsPickedAt, IsImageAt, EachIsPickedAt, IsImageFault};
    ghost use Rattle.pmem_trait.specs.Sights.{state_now};
    ghost use Rattle.pmem_trait.specs.Words.{last_told, IsContent};
    ghost use Rattle.std.specs.Prelude.{◌≡◌, ◌<◌, ◌≤◌, true, false, IfOk, IfErr, IsErrOf, ◌↔◌};

    /// A medium that is settled at these words. Of its calls, counted from 1, those over `budget` fail and do nothing,
    /// and so do those whose count is in `fail`. It takes memory for `budget` calls here, and none later.
    pub fn new(alloc: Global, words: Vec<u64>, budget: u64, fail: Vec<u64>) -> NewMedium
        requires { budget ≤ 10000000 }
        ensures { IfOk result (IsNewMedium words.items budget fail.items false) }
    {
        MemPmem::start(alloc, words, budget, fail, false)
    }

    /// A medium that is settled at these words, of which a call whose count is in `fail` has its whole effect before it
    /// fails. One over `budget` fails and does nothing.
    pub fn late(alloc: Global, words: Vec<u64>, budget: u64, fail: Vec<u64>) -> NewMedium
        requires { budget ≤ 10000000 }
        ensures { IfOk result (IsNewMedium words.items budget fail.items true) }
    {
        MemPmem::start(alloc, words, budget, fail, true)
    }

    fn start(alloc: Global, words: Vec<u64>, budget: u64, fail: Vec<u64>, late: bool) -> NewMedium
        requires { budget ≤ 10000000 }
        ensures { IfOk result (IsNewMedium words.items budget fail.items late) }
    {
        Ok(MemPmem {
            start: words.to_vec(alloc)?,
            words,
            history: CallHistory::new(alloc, budget, fail, late)?,
        })
    }

    /// What reads give, word by word.
    pub fn content(&self) -> &[u64]
        ensures { IsContent (sight self.now).len (state_now (sight self.now)) result.now }
    {
        &self.words
    }

    /// The calls made so far, but for those over the budget.
    pub fn made(&self) -> &[Made]
        ensures { result.now ≡ (sight self.now).made }
    {
        &self.history.calls
    }

    /// How many calls failed, up to 2^64 - 1.
    pub fn faults(&self) -> u64
        ensures { result ≡ (sight self.now).faults }
    {
        self.history.faults
    }

    /// The last number told.
    pub fn told(&self) -> Option<u64>
        ensures { result ≡ last_told (state_now (sight self.now)).told }
    {
        last_told_by(&self.history.calls, self.history.late)
    }

    /// An image that a crash may leave now. Word k takes the allowed value of index `picks[k]`, modulo their count: the
    /// settled value first, and then the later ones in order of their puts. An absent pick takes the settled value.
    pub fn crash(&self, alloc: Global, picks: &[u64]) -> Result<Vec<u64>, AllocError>
        ensures picked { IfOk result (IsPickedAt self.now (sight self.now).now picks.now) }
        ensures allowed { IfOk result (IsImageAt self.now (sight self.now).now) }
        ensures every { EachIsPickedAt self.now (sight self.now).now }
    {
        image_after(
            alloc,
            &self.start,
            &self.history.calls,
            self.history.late,
            picks,
        )
    }

    /// An image that a crash may leave at a moment up to now; `Later` where the moment hasn't come.
    pub fn images_at(
        &self,
        alloc: Global,
        moment: u64,
        picks: &[u64],
    ) -> Result<Vec<u64>, ImageFault>
        ensures picked { IfOk result (IsPickedAt self.now moment picks.now) }
        ensures allowed { IfOk result (IsImageAt self.now moment) }
        ensures every { EachIsPickedAt self.now moment }
        ensures later { IsLater self.now moment ↔ IsErrOf result (later_fault self.now moment) }
        ensures fault { IfErr result (IsImageFault self.now moment) }
    {
        let now = self.history.now;
        if moment > now {
            return Err(ImageFault::Later { moment, now });
        }
        let made = self.history.calls.as_slice();
        let count = made.len().min(moment as usize);
        Ok(image_after(alloc, &self.start, &made[..count], self.history.late, picks)?)
    }
}

impl Medium for MemPmem {
    ghost use Rattle.pmem_fake.specs.Fakes.{sight, MakesCall};
    ghost use Rattle.pmem_fake.specs.Sizes.{items_fit};
    ghost use Rattle.pmem_trait.specs.Sights.{state_now};
    ghost use Rattle.pmem_trait.specs.Words.{value_of};
    ghost use Rattle.pmem_trait.specs.declared.call.Call.TheVariants.{Read, Put, Flush, Fence, Tell};
    ghost use Rattle.std.specs.Prelude.{◌≡◌, ◌+◌, ◌*◌, ◌<◌, ◌≤◌, is_ok, IfOk};

    ghost sight = { λ medium. sight medium };

    fn len(&self) -> u64 {
        self.start.len() as u64
    }

    fn now(&self) -> u64 {
        self.history.now
    }

    fn read(&mut self, at: u64) -> Result<u64, Failed>
        requires { at < (sight self.old).len }
        ensures made { MakesCall (Read at) (is_ok result) self.old self.new }
        ensures value { IfOk result (λ v. v ≡ value_of ((state_now (sight self.old)).word at)) }
    {
        self.history.enter(Call::Read(at))?;
        Ok(self.words[at as usize])
    }

    fn put(&mut self, at: u64, value: u64) -> Result<(), Failed>
        requires { at < (sight self.old).len }
        ensures { MakesCall (Put at value) (is_ok result) self.old self.new }
    {
        if self.history.is_next_effective() {
            self.words[at as usize] = value;
        }
        self.history.enter(Call::Put { at, value })
    }

    fn flush(&mut self, line: u64) -> Result<(), Failed>
        requires { 8 * line + 8 ≤ (sight self.old).len }
        ensures { MakesCall (Flush line) (is_ok result) self.old self.new }
    {
        self.history.enter(Call::Flush(line))
    }

    fn fence(&mut self) -> Result<(), Failed>
        ensures { MakesCall Fence (is_ok result) self.old self.new }
    {
        self.history.enter(Call::Fence)
    }

    fn tell(&mut self, number: u64) -> Result<(), Failed>
        ensures { MakesCall (Tell number) (is_ok result) self.old self.new }
    {
        self.history.enter(Call::Tell(number))
    }

    ghost fits = { λ medium. (items_fit medium.start, medium.history.numbers_fit.0) };
}
