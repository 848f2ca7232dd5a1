//! Pools of records over an array of words: a record is taken and given back.

ghost use Rattle.record_heap.specs.Pool.{CountsTaken, FitsPool, GivesBack, IsFirstFree, HasHeader, IsRecord, TakesFree, take_writes, with_header};
ghost use Rattle.std.specs.Prelude.{◌<◌, ◌↔◌, IsTrue, IfOk, IfSome};
ghost use Rattle.word_space.specs.Steps.{AnswersSeen, ChangesSeen, Shows, UsesWords, WritesAsMany};

use dude_base::limits::ROW_WORDS;
use word_space::stop::Stop;
use word_space::words::Words;

/// A header line at the word `base`, and `count` records of `size` words each from the word `first`.
///
/// Word 0 of the header links the first free record, and word 1 counts the taken records. Word 1 of
/// a free record links the next one. A record goes by the number of its word 0, and so does a link
/// to it; a link of 0 leads to none.
#[derive(Clone, Copy)]
pub struct Pool {
    pub base: u64,
    pub first: u64,
    pub size: u64,
    pub count: u64,
}

/// The words of a pool's header: the link of the first free record, and how many are taken.
#[derive(Clone, Copy)]
struct Header {
    first: u64,
    live: u64,
}

impl Pool {
    /// Whether a record, free or taken, begins at the word `at`.
    pub fn has(&self, at: u64) -> bool
        requires size { 0 < self.now.size }
        ensures { IsTrue result ↔ IsRecord self.now at }
    {
        if at < self.first {
            return false;
        }
        let offset = at - self.first;
        // Most records have this size, and by a constant nothing is divided.
        if self.size == ROW_WORDS {
            return offset % ROW_WORDS == 0 && offset / ROW_WORDS < self.count;
        }
        offset % self.size == 0 && offset / self.size < self.count
    }

    /// Takes the first free record, and answers it.
    ///
    /// In an array that is no lawful pool, a link that is no record ends the free list.
    #[tactic(auto, using(word_space::proofs::Runs::using_words))]
    pub fn take<W: Words>(&self, w: &mut W) -> Result<Option<u64>, Stop>
        requires fits { FitsPool self.now (W.sight w.old).count }
        ensures uses { UsesWords W.sight W.turns_into 3 2 result w.old w.new }
        ensures wrote { WritesAsMany W.sight result w.old w.new take_writes }
        ensures record { IfOk result (λ r. IfSome r (IsRecord self.now)) }
        ensures first { AnswersSeen W.sight result w.old w.new (IsFirstFree self.now) }
        ensures takes { ChangesSeen W.sight result w.old w.new (TakesFree self.now) }
    {
        let header = self.header(w)?;
        if !self.has(header.first) {
            return Ok(None);
        }
        let next = w.read(header.first + 1)?;
        let live = header.live.saturating_add(1);
        self.put_header(w, Header { first: next, live })?;
        Ok(Some(header.first))
    }

    /// Puts a record before the others of the free list.
    ///
    /// What it does is said of arrays in which that record is not free. After a Stop the writes made before it are still
    /// pending, here as in `take`: the caller drops them.
    #[tactic(auto, using(word_space::proofs::Runs::using_words))]
    pub fn give<W: Words>(&self, w: &mut W, at: u64) -> Result<(), Stop>
        requires fits { FitsPool self.now (W.sight w.old).count }
        requires record { IsRecord self.now at }
        ensures uses { UsesWords W.sight W.turns_into 2 3 result w.old w.new }
        ensures wrote { WritesAsMany W.sight result w.old w.new (λ done. 3) }
        ensures gives { ChangesSeen W.sight result w.old w.new (GivesBack self.now at) }
    {
        let header = self.header(w)?;
        w.write(at + 1, header.first)?;
        let live = header.live.saturating_sub(1);
        self.put_header(w, Header { first: at, live })?;
        Ok(())
    }

    /// The number of taken records.
    pub fn live<W: Words>(&self, w: &mut W) -> Result<u64, Stop>
        requires fits { FitsPool self.now (W.sight w.old).count }
        ensures uses { UsesWords W.sight W.turns_into 1 0 result w.old w.new }
        ensures count { AnswersSeen W.sight result w.old w.new (CountsTaken self.now) }
    {
        w.read(self.base + 1)
    }

    fn header<W: Words>(&self, w: &mut W) -> Result<Header, Stop>
        requires fits { FitsPool self.now (W.sight w.old).count }
        ensures uses { UsesWords W.sight W.turns_into 2 0 result w.old w.new }
        ensures words { AnswersSeen W.sight result w.old w.new (HasHeader self.now) }
    {
        let first = w.read(self.base)?;
        let live = w.read(self.base + 1)?;
        Ok(Header { first, live })
    }

    fn put_header<W: Words>(&self, w: &mut W, header: Header) -> Result<(), Stop>
        requires fits { FitsPool self.now (W.sight w.old).count }
        ensures uses { UsesWords W.sight W.turns_into 0 2 result w.old w.new }
        ensures wrote { WritesAsMany W.sight result w.old w.new (λ done. 2) }
        ensures shown { Shows W.sight result w.old w.new (with_header self.now header) }
    {
        w.write(self.base, header.first)?;
        w.write(self.base + 1, header.live)?;
        Ok(())
    }
}
