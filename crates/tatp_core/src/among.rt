//! Subscribers are located among rows.

ghost use Rattle.std.specs.List.Sorted.{IsStrictlyIncreasing};
ghost use Rattle.std.specs.List.{filter};
ghost use Rattle.std.specs.Prelude.{◌≡◌, All, IfOk, map};
ghost use Rattle.tatp_core.specs.Located.{Locates, is_within};
ghost use Rattle.tatp_layout.specs.Index.{location_key};
ghost use Rattle.tatp_model.specs.Database.{IsSubRow};

use crate::locate::LOCATION;
use std::alloc::{AllocError, Global};
use tatp_model::SubRow;

/// The number and the location of each of these subscribers whose location is from `low` to `high`, by the location and
/// then by the number, the first `limit` of them. All rows are looked at.
pub fn locate_among(
    alloc: Global,
    rows: &[SubRow],
    low: u64,
    high: u64,
    limit: u64,
) -> Result<Vec<(u64, u64)>, AllocError>
    requires in_range { All IsSubRow rows.now }
    requires rise { IsStrictlyIncreasing (map (λ row. row.s_id) rows.now) }
    ensures { IfOk result (λ found. Locates low high limit rows.now found.items) }
{
    let mut keys = keys_within(alloc, rows, low, high)?;
    keys.sort_unstable();
    keys.truncate(limit as usize);
    let mut found = Vec::new(alloc);
    for key in &keys {
        found.push((*key % LOCATION, *key / LOCATION))?;
    }
    Ok(found)
}

// The keys of the rows whose location is in the range, in the rows' order.
fn keys_within(alloc: Global, rows: &[SubRow], low: u64, high: u64) -> Result<Vec<u64>, AllocError>
    requires { All IsSubRow rows.now }
    ensures { IfOk result (λ keys. keys.items ≡ map location_key
        (filter (is_within low high) rows.now)) }
{
    let mut keys = Vec::new(alloc);
    for row in rows {
        if low <= row.vlr && row.vlr <= high {
            keys.push(key_of(row))?;
        }
    }
    Ok(keys)
}

// The key of a subscriber in an index.
fn key_of(row: &SubRow) -> u64
    requires { IsSubRow row.now }
    ensures { result ≡ location_key row.now }
{
    row.vlr * LOCATION + row.s_id
}
