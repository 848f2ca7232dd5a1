//! Calls on words: reads and writes, those of a pool of three records and of a table of two buckets over it, and those of a tree.

ghost use Rattle.hash_table.specs.Table.{FitsTable};
ghost use Rattle.home_runs.specs.Stoppings.{stopping_sight};
ghost use Rattle.home_runs.specs.declared.calls.TheConstants.{TABLE};

use crate::page::Page;
use crate::stopping::Stopping;
use crate::trees::{move_key, take_tree_call};
use hash_table::put::Put;
use hash_table::table::Table;
use record_heap::pool::Pool;
use word_space::stop::Stop;
use word_space::words::Words;

/// A table of two buckets over a pool of three records.
const TABLE: Table = Table {
    buckets: 2,
    at: 24,
    pool: Pool {
        base: 0,
        first: 8,
        size: 4,
        count: 3,
    },
};

/// How many words the table takes, and the tree.
const TABLE_WORDS: u64 = 32;

/// What a call answered: a text, and a number where there is one.
pub type Answer = (&'static str, Option<u64>);

/// Makes a call, if the words have its places.
#[tactic(auto, using(hash_table::proofs::Fits::table_fits, tree_index::proofs::Fits::tree_fits))]
pub fn take_call(words: &mut Stopping, name: &str, numbers: &[u64]) -> Result<Answer, Stop> {
    match (name, numbers) {
        ("read", [at]) => Ok(("value", Some(read(words, *at)?))),
        ("write", [at, value]) => {
            write(words, *at, *value)?;
            Ok(("written", None))
        }
        ("exchange", [first, second]) => exchange(words, *first, *second),
        ("put" | "drop" | "next", [key]) if words.len() == TABLE_WORDS => {
            take_tree_call(words, name, *key)
        }
        ("move", [from, to]) if words.len() == TABLE_WORDS => move_key(words, *from, *to),
        _ if words.len() == TABLE_WORDS => take_pool_call(words, name, numbers),
        _ => Ok(("no command", None)),
    }
}

/// Makes a call, and prints what it answered.
pub fn say_call(words: &mut Stopping, name: &str, numbers: &[u64], page: &mut Page) {
    match take_call(words, name, numbers) {
        Ok((text, Some(number))) => page.numbers(text, &[number]),
        Ok((text, None)) => page.line(text),
        Err(Stop::Wide) => page.line("too wide"),
        Err(_) => page.line("stopped"),
    }
}

/// Reads a word, or 0 where there is none.
fn read(words: &mut Stopping, at: u64) -> Result<u64, Stop> {
    if at < words.len() {
        words.read(at)
    } else {
        Ok(0)
    }
}

/// Writes a word, if there is one.
fn write(words: &mut Stopping, at: u64, value: u64) -> Result<(), Stop> {
    if at < words.len() {
        words.write(at, value)
    } else {
        Ok(())
    }
}

/// Exchanges two words.
fn exchange(words: &mut Stopping, first: u64, second: u64) -> Result<Answer, Stop> {
    let x = read(words, first)?;
    let y = read(words, second)?;
    write(words, first, y)?;
    write(words, second, x)?;
    Ok(("exchanged", None))
}

/// Makes a call of the pool, or of the table.
fn take_pool_call(words: &mut Stopping, name: &str, numbers: &[u64]) -> Result<Answer, Stop>
    requires { FitsTable TABLE (stopping_sight words.old).count }
{
    let pool = &TABLE.pool;
    match (name, numbers) {
        ("take", []) => Ok(record_or_none(pool.take(words)?)),
        ("give", [at]) if pool.has(*at) => {
            pool.give(words, *at)?;
            Ok(("given", None))
        }
        ("live", []) => Ok(("taken", Some(pool.live(words)?))),
        (_, [key]) => take_table_call(words, name, *key),
        _ => Ok(("no command", None)),
    }
}

/// Makes a call of the table with a key.
fn take_table_call(words: &mut Stopping, name: &str, key: u64) -> Result<Answer, Stop>
    requires { FitsTable TABLE (stopping_sight words.old).count }
{
    match name {
        "find" => Ok(record_or_none(TABLE.find(words, key)?)),
        "insert" => Ok(put_answer(TABLE.insert(words, key)?)),
        "remove" => {
            let was = TABLE.remove(words, key)?;
            Ok((if was { "removed" } else { "not there" }, None))
        }
        _ => Ok(("no command", None)),
    }
}

/// What became of a key.
fn put_answer(put: Put) -> Answer {
    match put {
        Put::There(record) => ("there in", Some(record)),
        Put::Full => ("full", None),
        Put::Stored(record) => ("stored in", Some(record)),
    }
}

/// The record, if there is one.
fn record_or_none(record: Option<u64>) -> Answer {
    match record {
        Some(at) => ("record", Some(at)),
        None => ("none", None),
    }
}
