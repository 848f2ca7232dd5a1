//! The five tables by their kinds, each with where it stands and what its records may hold.

ghost use Rattle.dude_base.specs.declared.limits.TheConstants.{PAGE};
ghost use Rattle.hash_table.specs.Table.{FitsTable};
ghost use Rattle.std.specs.Prelude.{◌≡◌, ◌*◌};
ghost use Rattle.tatp_check.specs.Content.{table_of};

use crate::content::Content;
use crate::words::{
    is_access_word, is_call_word, is_facility_word, is_number_word, is_subscriber_word,
};
use hash_table::table::Table;
use tatp_layout::Layout;

/// The tables of a home, in their order.
#[derive(Clone, Copy)]
pub enum TableKind {
    Subscribers,
    /// The subscribers' ids by their phone numbers.
    Numbers,
    Access,
    Facilities,
    Calls,
}

impl TableKind {
    /// Where this table stands in the home.
    pub fn table(self, lay: &Layout) -> Table
        ensures table { result ≡ table_of self lay.now }
        ensures fits { FitsTable result (lay.now.pages * PAGE) }
    {
        match self {
            TableKind::Subscribers => lay.subscribers(),
            TableKind::Numbers => lay.numbers(),
            TableKind::Access => lay.access(),
            TableKind::Facilities => lay.facilities(),
            TableKind::Calls => lay.calls(),
        }
    }
}

impl Content for TableKind {
    ghost use Rattle.tatp_check.specs.Content.{content_of};

    ghost MayHold = { content_of };

    fn allows(&self, offset: u64, word: u64) -> bool {
        match self {
            TableKind::Subscribers => is_subscriber_word(offset, word),
            TableKind::Numbers => is_number_word(offset, word),
            TableKind::Access => is_access_word(offset, word),
            TableKind::Facilities => is_facility_word(offset, word),
            TableKind::Calls => is_call_word(offset, word),
        }
    }
}
