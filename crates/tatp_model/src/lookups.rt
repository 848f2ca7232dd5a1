//! The rows that a request names.

ghost use Rattle.std.specs.List.Sorted.{IsBinarySearchResult, IsSearchInRange, IsStrictlyIncreasing};
ghost use Rattle.std.specs.List.{list_any};
ghost use Rattle.std.specs.Prelude.{◌≡◌, ◌≤◌, find, position, length, All, map, filter};
ghost use Rattle.tatp_model.specs.CallOrder.{call_order, IsCountBefore};
ghost use Rattle.tatp_model.specs.Database.{access_key, facility_key, call_key, IsAccessRow, IsFacRow, IsCallRow, IsKeyFrom, KeysAreBelow};
ghost use Rattle.tatp_model.specs.Numbers.{numbers_of};
ghost use Rattle.tatp_model.specs.Transaction.{is_subscriber, has_phone, is_access, is_facility, is_active_facility, is_call, forwards};

use crate::access_row::AccessRow;
use crate::call_row::CallRow;
use crate::fac_row::FacRow;
use crate::numbers::Numbers;
use crate::sub_row::SubRow;

/// The index of the subscriber with this id.
pub(crate) fn index_of_subscriber(rows: &[SubRow], s_id: u64) -> Option<usize>
    requires { IsStrictlyIncreasing (map (λ r. r.s_id) rows.now) }
    ensures { result ≡ position (is_subscriber s_id) rows.now }
{
    rows.binary_search_by_key(&s_id, |r| r.s_id).ok()
}

/// The index of the subscriber with this phone number.
pub(crate) fn index_of_phone(rows: &[SubRow], sub_nbr: u64) -> Option<usize>
    ensures { result ≡ position (has_phone sub_nbr) rows.now }
{
    rows.iter().position(|r| r.sub_nbr == sub_nbr)
}

/// The index of the facility with this key.
pub(crate) fn index_of_facility(rows: &[FacRow], s_id: u64, sf_type: u64) -> Option<usize>
    requires in_range { All IsFacRow rows.now }
    requires rise { IsStrictlyIncreasing (map facility_key rows.now) }
    ensures { result ≡ position (is_facility s_id sf_type) rows.now }
{
    rows.binary_search_by_key(&(s_id, sf_type), |r| (r.s_id, r.sf_type))
        .ok()
}

/// The index of the access row with this key.
fn index_of_access(rows: &[AccessRow], s_id: u64, ai_type: u64) -> Option<usize>
    requires in_range { All IsAccessRow rows.now }
    requires rise { IsStrictlyIncreasing (map access_key rows.now) }
    ensures { result ≡ position (is_access s_id ai_type) rows.now }
{
    rows.binary_search_by_key(&(s_id, ai_type), |r| (r.s_id, r.ai_type))
        .ok()
}

/// The subscriber with this id.
pub(crate) fn subscriber(rows: &[SubRow], s_id: u64) -> Option<SubRow>
    requires { IsStrictlyIncreasing (map (λ r. r.s_id) rows.now) }
    ensures { result ≡ find (is_subscriber s_id) rows.now }
{
    let index = index_of_subscriber(rows, s_id)?;
    Some(rows[index])
}

/// The subscriber with this phone number.
pub(crate) fn by_phone(rows: &[SubRow], sub_nbr: u64) -> Option<SubRow>
    ensures { result ≡ find (has_phone sub_nbr) rows.now }
{
    let index = index_of_phone(rows, sub_nbr)?;
    Some(rows[index])
}

/// The access row with this key.
pub(crate) fn access(rows: &[AccessRow], s_id: u64, ai_type: u64) -> Option<AccessRow>
    requires in_range { All IsAccessRow rows.now }
    requires rise { IsStrictlyIncreasing (map access_key rows.now) }
    ensures { result ≡ find (is_access s_id ai_type) rows.now }
{
    let index = index_of_access(rows, s_id, ai_type)?;
    Some(rows[index])
}

/// Whether the facility with this key is there.
pub(crate) fn has_facility(rows: &[FacRow], s_id: u64, sf_type: u64) -> bool
    requires in_range { All IsFacRow rows.now }
    requires rise { IsStrictlyIncreasing (map facility_key rows.now) }
    ensures { result ≡ list_any (is_facility s_id sf_type) rows.now }
{
    index_of_facility(rows, s_id, sf_type).is_some()
}

/// A search of the call rows for this key: its index, or that at which it belongs.
fn search_calls(rows: &[CallRow], s_id: u64, sf_type: u64, start_time: u64) -> Result<usize, usize>
    ensures bound { IsSearchInRange result (length rows.now) }
    ensures halved { IsBinarySearchResult (call_order s_id sf_type start_time) rows.now result }
{
    rows.binary_search_by_key(&(s_id, sf_type, start_time), |r| {
        (r.s_id, r.sf_type, r.start_time)
    })
}

/// The index of the call row with this key.
pub(crate) fn index_of_call(
    rows: &[CallRow],
    s_id: u64,
    sf_type: u64,
    start_time: u64,
) -> Option<usize>
    requires in_range { All IsCallRow rows.now }
    requires rise { IsStrictlyIncreasing (map call_key rows.now) }
    ensures { result ≡ position (is_call s_id sf_type start_time) rows.now }
{
    search_calls(rows, s_id, sf_type, start_time).ok()
}

/// The count of the call rows before those of this key and of later ones.
fn count_before(rows: &[CallRow], s_id: u64, sf_type: u64, start_time: u64) -> usize
    requires in_range { All IsCallRow rows.now }
    requires rise { IsStrictlyIncreasing (map call_key rows.now) }
    ensures { IsCountBefore s_id sf_type start_time rows.now result }
{
    match search_calls(rows, s_id, sf_type, start_time) {
        Ok(at) => at,
        Err(at) => at,
    }
}

/// Whether the call row with this key is there.
pub(crate) fn has_call(rows: &[CallRow], s_id: u64, sf_type: u64, start_time: u64) -> bool
    requires in_range { All IsCallRow rows.now }
    requires rise { IsStrictlyIncreasing (map call_key rows.now) }
    ensures { result ≡ list_any (is_call s_id sf_type start_time) rows.now }
{
    index_of_call(rows, s_id, sf_type, start_time).is_some()
}

/// Whether the facility with this key is there, and active.
pub(crate) fn has_active_facility(rows: &[FacRow], s_id: u64, sf_type: u64) -> bool
    requires in_range { All IsFacRow rows.now }
    requires rise { IsStrictlyIncreasing (map facility_key rows.now) }
    ensures { result ≡ list_any (is_active_facility s_id sf_type) rows.now }
{
    match index_of_facility(rows, s_id, sf_type) {
        Some(at) => rows[at].is_active == 1,
        None => false,
    }
}

/// The index at which this call row belongs: that of the first row with a key
/// that isn't less, or the end.
pub(crate) fn index_of_key(rows: &[CallRow], row: &CallRow) -> usize
    requires this { IsCallRow row.now }
    requires in_range { All IsCallRow rows.now }
    requires rise { IsStrictlyIncreasing (map call_key rows.now) }
    ensures within { result ≤ length rows.now }
    ensures before { KeysAreBelow (call_key row.now) rows.now result }
    ensures at { IsKeyFrom (call_key row.now) rows.now result }
{
    count_before(rows, row.s_id, row.sf_type, row.start_time)
}

/// The phone numbers that the facility's calls from `start_time` to `end_time` are
/// forwarded to.
pub(crate) fn destinations(
    rows: &[CallRow],
    s_id: u64,
    sf_type: u64,
    start_time: u64,
    end_time: u64,
) -> Numbers
    requires in_range { All IsCallRow rows.now }
    requires rise { IsStrictlyIncreasing (map call_key rows.now) }
    ensures { result ≡ numbers_of (map (λ r. r.numberx)
        (filter (forwards s_id sf_type start_time end_time) rows.now)) }
{
    let first = count_before(rows, s_id, sf_type, 0);
    let behind = count_before(rows, s_id, sf_type, 24);
    forwarded(&rows[first..behind], s_id, sf_type, start_time, end_time)
}

/// The phone numbers that these rows forward the facility's calls to.
fn forwarded(rows: &[CallRow], s_id: u64, sf_type: u64, start_time: u64, end_time: u64) -> Numbers
    requires in_range { All IsCallRow rows.now }
    requires rise { IsStrictlyIncreasing (map call_key rows.now) }
    ensures { result ≡ numbers_of (map (λ r. r.numberx)
        (filter (forwards s_id sf_type start_time end_time) rows.now)) }
{
    let mut phones = Numbers::new();
    for row in rows {
        if row.forwards(s_id, sf_type, start_time, end_time) {
            phones.push(row.numberx);
        }
    }
    phones
}
