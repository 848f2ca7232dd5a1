//! The fault of words that are no record's cells.

use dude_base::wide::Wide;

/// Words that are no record's cells.
#[derive(Clone, Copy, Debug, PartialEq, Eq)]
pub struct BadRecord;

impl From<Wide> for BadRecord {
    fn from(_wide: Wide) -> Self {
        BadRecord
    }
}
