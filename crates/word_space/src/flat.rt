//! An array at rest, read and written by one transaction after another.

ghost use Rattle.word_space.specs.Sound.{IsSound};

use crate::read_set::ReadSet;
use crate::stop::Stop;
use crate::words::Words;
use dude_base::limits::MAX_WRITES;
use dude_base::redo::Redo;
use dude_base::wide::Wide;
use dude_base::write::Write;
use dude_base::write_list::WriteList;

/// An array at rest, with the reads made from it and the writes that are pending over it.
#[derive(Drop)]
pub struct Flat {
    words: Vec<u64>,
    reads: ReadSet,
    writes: WriteList,
    stopped: Option<Stop>,
    ghost sound: { IsSound words.items reads.reads writes stopped },
}

impl Flat {
    ghost use Rattle.dude_base.specs.Writes.{IsWide};
    ghost use Rattle.std.specs.Prelude.{◌≡◌, ◌↔◌, [], None, IsTrue};
    ghost use Rattle.word_space.specs.Flats.{words_of, flat_sight, fresh, redo_of};
    ghost use Rattle.word_space.specs.Sights.{IsBelow, shown};
    ghost use Rattle.word_space.specs.Sound.{IsWideOrNoMemory};

    /// The array, with nothing read and nothing written yet.
    pub fn new(words: Vec<u64>) -> Self
        ensures words { words_of result ≡ words.items }
        ensures fresh { flat_sight result ≡ fresh words.items }
    {
        let alloc = *words.allocator();
        Flat {
            words,
            reads: ReadSet::new(alloc),
            writes: WriteList::new(),
            stopped: None,
        }
    }

    /// The array at rest, without the pending writes.
    pub fn words(&self) -> &[u64]
        ensures words { result.now ≡ words_of self.now }

        // Every list of reads that it makes agrees with its array.
        ensures below { IsBelow (flat_sight self.now) (words_of self.now) }
        ensures stops { IsWideOrNoMemory (flat_sight self.now).stopped }
    {
        &self.words
    }

    /// Whether a write of the word `at` would be of a word too many.
    pub fn is_wide(&self, at: u64) -> bool
        ensures { IsTrue result ↔ IsWide (flat_sight self.now).writes at }
    {
        self.writes.len() == MAX_WRITES && self.writes.find(at).is_none()
    }

    /// The pending writes as the record of this number. They are applied to the array, and both lists
    /// are cleared.
    pub fn take(&mut self, number: u64) -> Redo
        ensures record { result ≡ redo_of number self.old }
        ensures words { words_of self.new ≡ shown (flat_sight self.old) (words_of self.old) }
        ensures fresh { flat_sight self.new ≡ fresh (words_of self.new) }
    {
        let writes = self.writes.copy();
        self.forget();
        writes.apply_to(&mut self.words);
        Redo::of(number, writes)
    }

    /// Clears both lists; the pending writes are lost.
    pub fn forget(&mut self)
        ensures words { words_of self.new ≡ words_of self.old }
        ensures fresh { flat_sight self.new ≡ fresh (words_of self.old) }
    {
        self.writes.clear();
        self.reads.clear();
        self.stopped = None;
    }

    /// The array, without the pending writes.
    pub fn into_words(self) -> Vec<u64>
        ensures { result.items ≡ words_of self }
    {
        self.words
    }
}

impl Words for Flat {
    ghost use Rattle.std.proofs.Common.{refl, ◌∙◌};
    ghost use Rattle.std.specs.Prelude.{◌≡◌, ◌<◌, IfErr};
    ghost use Rattle.word_space.specs.Flats.{flat_sight, flat_well_formed, HasSameWords};
    ghost use Rattle.word_space.specs.Steps.{MakesWrite, Shows, UsesWords, with_word};
    ghost use Rattle.word_space.specs.declared.stop.Stop.{Stop};

    ghost sight = { flat_sight };

    ghost turns_into = { HasSameWords };

    ghost well_formed = { flat_well_formed };

    ghost begins = { λ x. refl };

    ghost goes_on = { λ x y z first next. next ∙ first };

    fn len(&self) -> u64 {
        self.words.len() as u64
    }

    fn read(&mut self, at: u64) -> Result<u64, Stop> {
        if let Some(value) = self.writes.find(at) {
            return Ok(value);
        }
        if self.reads.room().is_err() {
            self.stopped = Some(Stop::NoMemory);
            return Err(Stop::NoMemory);
        }
        let value = self.words[at as usize];
        self.reads.add(at, value);
        Ok(value)
    }

    // It takes no memory: the only Stop is that of a 25th different word.
    fn write(&mut self, at: u64, value: u64) -> Result<(), Stop>
        requires inside { at < (flat_sight self.old).count }
        ensures uses { UsesWords flat_sight HasSameWords 0 1 result self.old self.new }
        ensures writes { MakesWrite flat_sight at value result self.old self.new }
        ensures shown { Shows flat_sight result self.old self.new (with_word at value) }
        ensures no_memory { IfErr result (λ stop. stop ≡ Stop.Wide) }
    {
        match self.writes.put(Write { at, value }) {
            Ok(()) => Ok(()),
            Err(Wide) => {
                self.stopped = Some(Stop::Wide);
                Err(Stop::Wide)
            }
        }
    }
}
