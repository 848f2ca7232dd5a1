//! An image in memory as a medium that can only be read.

ghost use Rattle.std.specs.Prelude.{◌<◌, ◌^◌, length};

use pmem_trait::{Failed, FaultCount, Medium};

/// An image in memory as a medium that can only be read. Each other call fails, and changes nothing.
#[derive(Drop)]
pub struct PlainImage<'a> {
    image: &'a [u64],
    now: u64,
    faults: FaultCount,
    ghost short: { length image.now < 2 ^ 64 },
    ghost now_fits: { now < 2 ^ 64 },
}

impl<'a> PlainImage<'a> {
    ghost use Rattle.image_recovery.specs.PlainImages.{FailsEachCall, still_sight};
    ghost use Rattle.std.specs.Prelude.{◌≡◌};

    /// The image at moment 0.
    pub fn new(image: &'a [u64]) -> PlainImage<'a>
        ensures image { result.image.now ≡ image.now }
        ensures now { result.now ≡ 0 }
        ensures faults { result.faults.count ≡ 0 }
    {
        // A slice has fewer than 2^64 words.
        let _len = image.len();
        PlainImage {
            image,
            now: 0,
            faults: FaultCount::new(),
        }
    }

    // One moment passes, where one is left, and the call fails.
    fn refuse(&mut self) -> Failed
        ensures { FailsEachCall
            (still_sight self.old.image.now self.old.now self.old.faults.count)
            (still_sight self.new.image.now self.new.now self.new.faults.count) }
    {
        self.now = self.now.saturating_add(1);
        self.faults.rise();
        Failed
    }
}

impl<'a> Medium for PlainImage<'a> {
    ghost use Rattle.image_recovery.specs.PlainImages.{still_sight};

    ghost sight = { λ m. still_sight m.image.now m.now m.faults.count };

    fn len(&self) -> u64 {
        self.image.len() as u64
    }

    fn now(&self) -> u64 {
        self.now
    }

    fn read(&mut self, at: u64) -> Result<u64, Failed> {
        if self.now == u64::MAX {
            return Err(self.refuse());
        }
        self.now += 1;
        Ok(self.image[at as usize])
    }

    fn put(&mut self, _at: u64, _value: u64) -> Result<(), Failed> {
        Err(self.refuse())
    }

    fn flush(&mut self, _line: u64) -> Result<(), Failed> {
        Err(self.refuse())
    }

    fn fence(&mut self) -> Result<(), Failed> {
        Err(self.refuse())
    }

    fn tell(&mut self, _number: u64) -> Result<(), Failed> {
        Err(self.refuse())
    }

    ghost fits = { λ m. (m.short, m.now_fits) };
}
