//! The table of call rows, and how many rows it has.

ghost use Rattle.hash_table.specs.Table.{FitsTable};
ghost use Rattle.std.specs.Prelude.{◌≡◌, ◌+◌, ◌%◌, ◌<◌, ◌≤◌, ◌^◌, length};
ghost use Rattle.tatp_model.specs.Population.{calls_of, population_calls};
ghost use Rattle.tatp_rows.specs.Entries.{facility_call_entries};
ghost use Rattle.tatp_rows.specs.Filling.{Inserts};

use crate::fill::put_record;
use crate::populated::Populated;
use crate::rows::call_row;
use crate::words::call_entry;
use hash_table::table::Table;
use tatp_layout::Layout;

/// How many call rows the population of so many subscribers has.
pub fn call_rows(subscribers: u64) -> u64
    requires { subscribers < 2 ^ 31 }
    ensures { result ≡ population_calls subscribers }
{
    let mut rows = 0;
    for s in 1..subscribers + 1 {
        rows += call_rows_of(s);
    }
    rows
}

// How many call rows the facilities of one subscriber have.
fn call_rows_of(s: u64) -> u64
    requires { s < 2 ^ 31 }
    ensures few { result ≤ 12 }
    ensures rows { result ≡ length (calls_of s) }
{
    let mut rows = 0;
    for f in 1..2 + (s + 1) % 4 {
        rows += (s + f) % 4;
    }
    rows
}

// Inserts the call rows of one facility, from the record at this index on, and answers the next index.
fn put_calls(words: &mut [u64], table: &Table, index: u64, s: u64, f: u64) -> u64
    requires fits { FitsTable table.now (length words.old) }
    requires wide { 4 ≤ table.now.pool.size }
    requires subscriber { (1 ≤ s) × (s < 2 ^ 31) }
    requires facility { (1 ≤ f) × (f ≤ 4) }
    requires room { index + (s + f) % 4 ≤ table.now.pool.count }
    ensures index { result ≡ index + (s + f) % 4 }
    ensures filling { Inserts table.now index (facility_call_entries s f) words.old words.new }
{
    let count = (s + f) % 4;
    for k in 0..count {
        put_record(words, table, index + k, &call_entry(&call_row(s, f, k)));
    }
    index + count
}

/// The table of call rows.
pub(crate) struct Calls;

impl Populated for Calls {
    ghost use Rattle.tatp_layout.specs.Layout.{call_table};
    ghost use Rattle.tatp_rows.specs.Entries.{call_entries};

    ghost place = { call_table };

    ghost entries = { call_entries };

    fn table(lay: &Layout) -> Table {
        lay.calls()
    }

    fn put(words: &mut [u64], lay: &Layout, index: u64, s: u64) -> u64 {
        let table = lay.calls();
        let mut next = index;
        for f in 1..2 + (s + 1) % 4 {
            next = put_calls(words, &table, next, s, f);
        }
        next
    }
}
