//! The tables that have rows of several kinds for each subscriber: access rows and facilities.

ghost use Rattle.hash_table.specs.Table.{FitsTable};
ghost use Rattle.std.specs.Prelude.{◌≡◌, ℕ, ◌+◌, ◌%◌, ◌<◌, ◌≤◌, ◌^◌, List, length};
ghost use Rattle.tatp_layout.specs.Records.{access_form, facility_form};
ghost use Rattle.tatp_model.specs.Population.{access_at, facility_at};
ghost use Rattle.tatp_rows.specs.Entries.{of_kinds};
ghost use Rattle.tatp_rows.specs.Filling.{Inserts, entry_of};

use crate::fill::put_record;
use crate::populated::Populated;
use crate::rows::{access_row, facility_row};
use crate::words::{access_entry, facility_entry};
use hash_table::table::Table;
use tatp_layout::Layout;

// Rows that a subscriber has of several kinds.
trait OfKinds {
    ghost entry_at: { ℕ → ℕ → List ℕ };

    // The words of the record of this subscriber and kind, without the link.
    fn entry(s: u64, kind: u64) -> [u64; 3]
        requires subscriber { (1 ≤ s) × (s < 2 ^ 31) }
        requires kind { (1 ≤ kind) × (kind ≤ 4) }
        ensures { result ≡ entry_at s kind };
}

// Inserts a subscriber's rows of so many kinds, from the record at this index on, and answers the next index.
fn put_kinds<K: OfKinds>(words: &mut [u64], table: &Table, index: u64, s: u64, count: u64) -> u64
    requires fits { FitsTable table.now (length words.old) }
    requires wide { 4 ≤ table.now.pool.size }
    requires subscriber { (1 ≤ s) × (s < 2 ^ 31) }
    requires few { count ≤ 4 }
    requires room { index + count ≤ table.now.pool.count }
    ensures index { result ≡ index + count }
    ensures filling { Inserts table.now index (of_kinds K.entry_at s count) words.old words.new }
{
    for k in 0..count {
        put_record(words, table, index + k, &K::entry(s, k + 1));
    }
    index + count
}

/// The table of access rows: subscriber `s` has `1 + s % 4` of them.
pub(crate) struct Access;

/// The table of facilities: subscriber `s` has `1 + (s + 1) % 4` of them.
pub(crate) struct Facilities;

impl OfKinds for Access {
    ghost entry_at = { λ s kind. entry_of access_form (access_at s kind) };

    fn entry(s: u64, kind: u64) -> [u64; 3] {
        access_entry(&access_row(s, kind))
    }
}

impl OfKinds for Facilities {
    ghost entry_at = { λ s kind. entry_of facility_form (facility_at s kind) };

    fn entry(s: u64, kind: u64) -> [u64; 3] {
        facility_entry(&facility_row(s, kind))
    }
}

impl Populated for Access {
    ghost use Rattle.tatp_layout.specs.Layout.{access_table};
    ghost use Rattle.tatp_rows.specs.Entries.{access_entries};

    ghost place = { access_table };

    ghost entries = { access_entries };

    fn table(lay: &Layout) -> Table {
        lay.access()
    }

    fn put(words: &mut [u64], lay: &Layout, index: u64, s: u64) -> u64 {
        put_kinds::<Access>(words, &lay.access(), index, s, 1 + s % 4)
    }
}

impl Populated for Facilities {
    ghost use Rattle.tatp_layout.specs.Layout.{facility_table};
    ghost use Rattle.tatp_rows.specs.Entries.{facility_entries};

    ghost place = { facility_table };

    ghost entries = { facility_entries };

    fn table(lay: &Layout) -> Table {
        lay.facilities()
    }

    fn put(words: &mut [u64], lay: &Layout, index: u64, s: u64) -> u64 {
        put_kinds::<Facilities>(words, &lay.facilities(), index, s, 1 + (s + 1) % 4)
    }
}
