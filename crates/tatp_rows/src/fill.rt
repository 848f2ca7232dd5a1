//! A table is filled record by record, and its free list and its header are written at the end.

ghost use Rattle.hash_table.specs.Table.{FitsTable};
ghost use Rattle.record_heap.specs.Pool.{FitsPool};
ghost use Rattle.std.specs.Prelude.{◌≡◌, ◌+◌, ◌^◌, ◌<◌, ◌≤◌, [], ◌∷◌, length, slice_index};
ghost use Rattle.tatp_rows.specs.Filled.{record_at};
ghost use Rattle.tatp_rows.specs.Filling.{Finishes, HasEntry, Inserts, KeepsOthers, free_link};

use hash_table::table::Table;
use record_heap::pool::Pool;

// The words of the record at this one, without the link.
fn put_entry(words: &mut [u64], at: u64, entry: &[u64])
    requires some { 1 ≤ length entry.now }
    requires inside { at + 1 + length entry.now ≤ length words.old }
    ensures held { HasEntry words.new at entry.now }
    ensures link { slice_index words.new (at + 1) ≡ slice_index words.old (at + 1) }
    ensures others { KeepsOthers at (1 + length entry.now) words.old words.new }
{
    words[at as usize] = entry[0];
    for j in 1..entry.len() {
        words[at as usize + 1 + j] = entry[j];
    }
}

/// Inserts a row's words into the record at this index, before the others of its chain.
///
/// The rows of a table are inserted one after another, from index 0 on.
pub fn put_record(words: &mut [u64], table: &Table, index: u64, entry: &[u64])
    requires fits { FitsTable table.now (length words.old) }
    requires index { index < table.now.pool.count }
    requires some { 1 ≤ length entry.now }
    requires room { length entry.now < table.now.pool.size }
    ensures filling { Inserts table.now index (entry.now ∷ []) words.old words.new }
{
    let at = table.pool.first + table.pool.size * index;
    let link = (table.at + entry[0] % table.buckets) as usize;
    words[at as usize + 1] = words[link];
    words[link] = at;
    put_entry(words, at, entry);
}

/// Links the records from the `rows`-th on as free ones, and counts the others.
pub fn finish(words: &mut [u64], pool: &Pool, rows: u64)
    requires fits { FitsPool pool.now (length words.old) }
    requires few { rows ≤ pool.now.count }
    ensures { Finishes pool.now rows words.old words.new }
{
    words[pool.base as usize] = free_record(pool, rows);
    words[pool.base as usize + 1] = rows;
    for k in rows..pool.count {
        let at = pool.first + pool.size * k;
        words[at as usize + 1] = free_record(pool, k + 1);
    }
}

// The record at this index, or 0 where there is none.
fn free_record(pool: &Pool, index: u64) -> u64
    requires { index < pool.now.count → record_at pool.now index < 2 ^ 64 }
    ensures { result ≡ free_link pool.now index }
{
    if index < pool.count {
        pool.first + pool.size * index
    } else {
        0
    }
}
