//! Tables over an array of words: a key is found, inserted and removed.

ghost use Rattle.hash_table.specs.Seek.{DropsAt, PutsFree, SeeksFirst, pushed_front};
ghost use Rattle.hash_table.specs.Table.{FindsAll, FitsTable, InsertsAll, InsertsNew, RemovesAll, put_record, write_count};
ghost use Rattle.hash_table.specs.Walk.{FindsFirst, PutsFirst, RemovesFirst, insert_reads, remove_reads, walk_reads};
ghost use Rattle.record_heap.specs.Pool.{IsRecord};
ghost use Rattle.std.specs.Prelude.{◌≡◌, ◌+◌, ◌%◌, ◌^◌, ◌<◌, if◌then◌else◌, IfOk, IfSome};
ghost use Rattle.word_space.specs.Steps.{AnswersSeen, ChangesSeen, Shows, UsesWords, WritesAsMany};

use crate::put::Put;
use record_heap::pool::Pool;
use word_space::stop::Stop;
use word_space::words::Words;

/// Chains of the records of a pool, one for each of `buckets` buckets, whose links stand in the
/// words from `at` on.
///
/// Word 0 of a record is its key, and word 1 links the next record of its chain. A key is in the
/// chain of the bucket `key mod buckets`. A link is the first word of a record, or 0 for none.
///
/// In an array that is no lawful table, a link that is no record's first word ends its chain, and
/// a chain ends after as many records as the pool has.
#[derive(Clone, Copy)]
pub struct Table {
    pub buckets: u64,
    pub at: u64,
    pub pool: Pool,
}

/// A record of a chain, and the word that links it.
#[derive(Clone, Copy)]
struct ChainPosition {
    link: u64,
    record: u64,
}

impl Table {
    /// The record with this key.
    pub fn find<W: Words>(&self, w: &mut W, key: u64) -> Result<Option<u64>, Stop>
        requires fits { FitsTable self.now (W.sight w.old).count }
        ensures uses { UsesWords W.sight W.turns_into (walk_reads self.now) 0 result w.old w.new }
        // In any array the answer is that of the chain of the key's bucket, and a record.
        ensures finds { AnswersSeen W.sight result w.old w.new (FindsFirst self.now key) }
        ensures record { IfOk result (λ r. IfSome r (IsRecord self.now.pool)) }
        ensures found { AnswersSeen W.sight result w.old w.new (λ a r. FindsAll self.now a key r) }
    {
        match self.seek(w, key)? {
            Some(position) => Ok(Some(position.record)),
            None => Ok(None),
        }
    }

    /// Puts the key into a free record before the others of its chain, unless the key is there.
    ///
    /// The other words of the record are left as they were. After a Stop the writes made before it
    /// are still pending, here as in `remove`: the caller drops them.
    pub fn insert<W: Words>(&self, w: &mut W, key: u64) -> Result<Put, Stop>
        requires fits { FitsTable self.now (W.sight w.old).count }
        ensures uses { UsesWords W.sight W.turns_into (insert_reads self.now) 5 result w.old w.new }
        ensures wrote { WritesAsMany W.sight result w.old w.new write_count }
        // In any array the answer is that of the chain of the key's bucket and of the first free record, and a record.
        ensures puts { AnswersSeen W.sight result w.old w.new (PutsFirst self.now key) }
        ensures record { IfOk result (λ put. IfSome (put_record put) (IsRecord self.now.pool)) }
        ensures inserts { ChangesSeen W.sight result w.old w.new (InsertsAll self.now key) }
    {
        match self.seek(w, key)? {
            Some(position) => Ok(Put::There(position.record)),
            None => self.store(w, key),
        }
    }

    /// Takes the record with this key out of its chain and gives it back to the pool. Answers
    /// whether the key was there.
    pub fn remove<W: Words>(&self, w: &mut W, key: u64) -> Result<bool, Stop>
        requires fits { FitsTable self.now (W.sight w.old).count }
        ensures uses { UsesWords W.sight W.turns_into (remove_reads self.now) 4 result w.old w.new }
        ensures wrote { WritesAsMany W.sight result w.old w.new (λ was. if was then 4 else 0) }
        // In any array the answer is that of the chain of the key's bucket.
        ensures finds { AnswersSeen W.sight result w.old w.new (RemovesFirst self.now key) }
        ensures removes { ChangesSeen W.sight result w.old w.new (RemovesAll self.now key) }
    {
        let Some(position) = self.seek(w, key)? else {
            return Ok(false);
        };
        self.unlink(w, position)?;
        Ok(true)
    }

    // The word that links the first record of the key's chain.
    fn link_of(&self, key: u64) -> u64
        requires buckets { 0 < self.now.buckets }
        requires fits { self.now.at + self.now.buckets < 2 ^ 64 }
        ensures { result ≡ self.now.at + key % self.now.buckets }
    {
        self.at + key % self.buckets
    }

    // Walks along the key's chain to the record with the key.
    fn seek<W: Words>(&self, w: &mut W, key: u64) -> Result<Option<ChainPosition>, Stop>
        requires fits { FitsTable self.now (W.sight w.old).count }
        ensures uses { UsesWords W.sight W.turns_into (walk_reads self.now) 0 result w.old w.new }
        ensures record { IfOk result (λ r. IfSome r (λ p. IsRecord self.now.pool p.record)) }
        ensures link { IfOk result (λ r. IfSome r (λ p. p.link < (W.sight w.old).count)) }
        ensures seeks { AnswersSeen W.sight result w.old w.new (SeeksFirst self.now key) }
    {
        let mut link = self.link_of(key);
        for _ in 0..self.pool.count {
            let record = w.read(link)?;
            if !self.pool.has(record) {
                return Ok(None);
            }
            if w.read(record)? == key {
                return Ok(Some(ChainPosition { link, record }));
            }
            link = record + 1;
        }
        Ok(None)
    }

    // Puts the key, which isn't there, into the first free record.
    fn store<W: Words>(&self, w: &mut W, key: u64) -> Result<Put, Stop>
        requires fits { FitsTable self.now (W.sight w.old).count }
        ensures uses { UsesWords W.sight W.turns_into 4 5 result w.old w.new }
        ensures wrote { WritesAsMany W.sight result w.old w.new write_count }
        ensures puts { AnswersSeen W.sight result w.old w.new (PutsFree self.now) }
        ensures record { IfOk result (λ put. IfSome (put_record put) (IsRecord self.now.pool)) }
        ensures inserts { ChangesSeen W.sight result w.old w.new (InsertsNew self.now key) }
    {
        let head = w.read(self.link_of(key))?;
        let Some(at) = self.pool.take(w)? else {
            return Ok(Put::Full);
        };
        self.push_front(w, key, at, head)?;
        Ok(Put::Stored(at))
    }

    // Writes the key and the link into the record at `at`, and makes it the first of its chain.
    fn push_front<W: Words>(&self, w: &mut W, key: u64, at: u64, head: u64) -> Result<(), Stop>
        requires fits { FitsTable self.now (W.sight w.old).count }
        requires record { IsRecord self.now.pool at }
        ensures uses { UsesWords W.sight W.turns_into 0 3 result w.old w.new }
        ensures wrote { WritesAsMany W.sight result w.old w.new (λ done. 3) }
        ensures shown { Shows W.sight result w.old w.new (pushed_front self.now key at head) }
    {
        w.write(at, key)?;
        w.write(at + 1, head)?;
        w.write(self.link_of(key), at)?;
        Ok(())
    }

    // Takes the record at this position out of its chain and gives it back to the pool.
    fn unlink<W: Words>(&self, w: &mut W, position: ChainPosition) -> Result<(), Stop>
        requires fits { FitsTable self.now (W.sight w.old).count }
        requires record { IsRecord self.now.pool position.record }
        requires link { position.link < (W.sight w.old).count }
        ensures uses { UsesWords W.sight W.turns_into 3 4 result w.old w.new }
        ensures wrote { WritesAsMany W.sight result w.old w.new (λ done. 4) }
        ensures drops { ChangesSeen W.sight result w.old w.new (DropsAt self.now position) }
    {
        let next = w.read(position.record + 1)?;
        self.pool.give(w, position.record)?;
        w.write(position.link, next)?;
        Ok(())
    }
}
