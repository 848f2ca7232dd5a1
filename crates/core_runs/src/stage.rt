//! The machine on which a script is played.

ghost use Rattle.std.specs.Prelude.{◌≡◌, length};

use crate::sum::Sum;
use dude_base::limits::{MAX_NUMBER, PAGE};
use dude_base::run::Run;
use dude_base::sizes::Sizes;
use dude_core::{Core, CoreFault, CoreRefusal, CoreWord, Event, core_step};
use std::alloc::Global;

/// A machine, what its first home word and its number were at the start, and the sum of all calls made on its medium.
#[derive(Drop)]
pub struct Stage {
    pub alloc: Global,
    pub core: Core,
    first_word: u64,
    first: u64,
    made: Sum,
}

impl Stage {
    /// The machine at its start over a database whose words are numbers from the first one on; `None` where the sizes or the
    /// numbers (threads, frames, locks, boxes, and the number at the start) are none of a script.
    pub fn open(
        alloc: Global,
        sizes: Sizes,
        first_word: u64,
        numbers: &[u64],
    ) -> Result<Option<Stage>, CoreFault> {
        let [threads, frames, locks, boxes, number] = numbers else {
            return Ok(None);
        };
        let (threads, number) = (*threads, *number);
        if sizes.check().is_err() || sizes.pages > 1_000 || number > MAX_NUMBER {
            return Ok(None);
        }
        let mut words = vec![in alloc; 0; (sizes.pages * PAGE) as usize]?;
        put_opening(first_word, &mut words);
        let run = Run {
            frames: *frames,
            locks: *locks,
            boxes: *boxes,
        };
        match Core::new(alloc, words, &sizes, &run, threads, number) {
            Ok(core) => Ok(Some(Stage {
                alloc,
                core,
                first_word,
                first: number,
                made: Sum::new(),
            })),
            Err(fault) => Err(fault),
        }
    }

    /// The home word at the start.
    pub fn opening_word(&self, at: u64) -> u64 {
        self.first_word.saturating_add(at)
    }

    /// The number at the start.
    pub fn first(&self) -> u64 {
        self.first
    }

    /// The sum of all calls made on the medium.
    pub fn calls_made(&self) -> u64 {
        self.made.total()
    }

    /// Makes the event by this view, and says in a word whether it is allowed.
    pub fn make(&mut self, who: u64, event: &Event) -> &'static str {
        let outcome = core_step(self.alloc, &mut self.core, who, event);
        if outcome.is_ok() {
            self.add_call(event);
        }
        said_of(outcome)
    }

    /// Adds the call on the medium that was made, if the event is one.
    fn add_call(&mut self, event: &Event) {
        if let Event::Device { call } = event {
            self.made.add_call(call);
        }
    }

    /// The sizes of the image.
    pub fn sizes(&self) -> Sizes {
        self.core.store().place().sizes()
    }

    /// The home word as the last whole call of the back left it, if there is such a word.
    pub fn home_word(&self, at: u64) -> Option<u64> {
        let store = self.core.store();
        if at < store.place().sizes().pages * PAGE {
            Some(store.home_word(at))
        } else {
            None
        }
    }

    /// The slot behind the last bundle of the ring, if there is such a ring.
    pub fn next_slot(&self, ring: u64) -> Option<u64> {
        let store = self.core.store();
        if ring < store.place().sizes().rings {
            Some(store.next(ring))
        } else {
            None
        }
    }

    /// Whether there is such a ring, with room for so many cells more.
    pub fn has_room(&self, ring: u64, cells: u64) -> bool {
        let store = self.core.store();
        if ring < store.place().sizes().rings {
            store.has_room(ring, cells)
        } else {
            false
        }
    }

    /// Whether there is such a ring, and the number is over all that its bundles cover.
    pub fn is_newest(&self, ring: u64, number: u64) -> bool {
        let store = self.core.store();
        if ring < store.place().sizes().rings {
            store.is_newest(ring, number)
        } else {
            false
        }
    }

    /// What the word holds, if there is such a word.
    pub fn found(&self, word: CoreWord) -> Option<u64> {
        if self.core.has_word(word) {
            Some(self.core.word(word))
        } else {
            None
        }
    }
}

/// What came of an event, in a word.
fn said_of(outcome: Result<(), CoreRefusal>) -> &'static str {
    match outcome {
        Ok(()) => "allowed",
        Err(CoreRefusal::Off) => "off",
        Err(CoreRefusal::NoMemory) => "no memory",
    }
}

/// The place of this word of a page, or of a frame.
pub fn place_in(page: u64, offset: u64) -> u64 {
    page.saturating_mul(PAGE).saturating_add(offset)
}

/// Puts the opening values into home words.
fn put_opening(first_word: u64, words: &mut [u64])
    ensures { length words.new ≡ length words.old }
{
    for at in 0..words.len() {
        words[at] = first_word.saturating_add(at as u64);
    }
}
