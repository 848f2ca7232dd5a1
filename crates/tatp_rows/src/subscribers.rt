//! The tables of subscribers, by s_id and by phone number.

use crate::fill::put_record;
use crate::populated::Populated;
use crate::rows::subscriber_row;
use crate::words::{number_entry, subscriber_entry};
use hash_table::table::Table;
use tatp_layout::Layout;

/// The table of subscribers.
pub(crate) struct Subscribers;

impl Populated for Subscribers {
    ghost use Rattle.tatp_layout.specs.Layout.{subscriber_table};
    ghost use Rattle.tatp_rows.specs.Entries.{subscriber_entries};

    ghost place = { subscriber_table };

    ghost entries = { subscriber_entries };

    fn table(lay: &Layout) -> Table {
        lay.subscribers()
    }

    fn put(words: &mut [u64], lay: &Layout, index: u64, s: u64) -> u64 {
        put_record(
            words,
            &lay.subscribers(),
            index,
            &subscriber_entry(&subscriber_row(s)),
        );
        index + 1
    }
}

/// The table that finds subscribers by their phone numbers.
pub(crate) struct Numbers;

impl Populated for Numbers {
    ghost use Rattle.tatp_layout.specs.Layout.{number_table};
    ghost use Rattle.tatp_rows.specs.Entries.{number_entries};

    ghost place = { number_table };

    ghost entries = { number_entries };

    fn table(lay: &Layout) -> Table {
        lay.numbers()
    }

    fn put(words: &mut [u64], lay: &Layout, index: u64, s: u64) -> u64 {
        put_record(
            words,
            &lay.numbers(),
            index,
            &number_entry(&subscriber_row(s)),
        );
        index + 1
    }
}
