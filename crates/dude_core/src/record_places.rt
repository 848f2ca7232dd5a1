//! Records by place.

ghost use Rattle.core_events.specs.Conditions.{no_record};
ghost use Rattle.std.specs.Prelude.{◌≡◌, slice_index_or};

use dude_base::redo::Redo;

/// A copy of the record at the place; past the end one without a number.
pub(crate) fn record_at(records: &Vec<Redo>, at: u64) -> Redo
    ensures { result ≡ slice_index_or records.now.items at no_record }
{
    if at < records.len() as u64 {
        records[at as usize].copy()
    } else {
        Redo::new(0)
    }
}
