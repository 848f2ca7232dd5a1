//! The rows of some records.

ghost use Rattle.std.specs.Prelude.{◌≡◌, ◌+◌, ◌≤◌, All, IfOk, length, map};

use std::alloc::{AllocError, Global};
use tatp_layout::RecordRow;

/// The rows of these records, in their order.
pub(crate) fn rows_at<R: RecordRow + Drop>(
    alloc: Global,
    a: &[u64],
    records: &[u64],
) -> Result<Vec<R>, AllocError>
    requires wide { 2 ≤ R.size }
    requires inside { All (λ at. at + R.size ≤ length a.now) records.now }
    ensures { IfOk result (λ rows. rows.items ≡ map (R.row_in a.now) records.now) }
{
    let mut rows = Vec::with_capacity(alloc, records.len())?;
    for at in records {
        let at = *at as usize;
        rows.push(R::of(&a[at..at + R::size() as usize]))?;
    }
    Ok(rows)
}
