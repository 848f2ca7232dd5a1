//! The rows of a new database, by formulas.

ghost use Rattle.std.specs.List.{range_with_len};
ghost use Rattle.std.specs.Prelude.{◌≡◌, ◌+◌, ◌%◌, ◌<◌, ◌≤◌, ◌^◌, map};
ghost use Rattle.tatp_model.specs.Population.{access_at, call_at, facility_at, letters, subscriber_at};

use tatp_model::{AccessData, AccessRow, CallRow, FacRow, SubRow};

// The ten columns of one kind: column i, from 1, is `(start + i) % base`.
fn columns(base: u64, start: u64) -> [u8; 10]
    requires some { 1 ≤ base }
    requires bytes { base ≤ 256 }
    requires small { start < 2 ^ 63 }
    ensures { result ≡ map (λ i. (start + i) % base) (range_with_len 1 10) }
{
    let mut columns = [0; 10];
    for i in 0..10 {
        columns[i] = ((start + (i as u64 + 1)) % base) as u8;
    }
    columns
}

// The letters from the one at index `start % 26` of A to Z on, going round.
fn letters_from<const N: usize>(start: u64) -> [u8; N]
    requires { start < 2 ^ 63 }
    ensures { result ≡ letters start N }
{
    let mut letters = [0; N];
    for j in 0..N {
        letters[j] = (65 + (start + j as u64) % 26) as u8;
    }
    letters
}

/// Subscriber `s` of the population.
pub fn subscriber_row(s: u64) -> SubRow
    requires { s < 2 ^ 31 }
    ensures { result ≡ subscriber_at s }
{
    SubRow {
        s_id: s,
        sub_nbr: s,
        bits: columns(2, s),
        hexes: columns(16, s),
        bytes: columns(256, 7 * s),
        msc: s,
        vlr: 1_000_000 + s,
    }
}

/// Access row `a` of subscriber `s`.
pub fn access_row(s: u64, a: u64) -> AccessRow
    requires subscriber { s < 2 ^ 31 }
    requires kind { a ≤ 4 }
    ensures { result ≡ access_at s a }
{
    let info = AccessData {
        data1: ((s + a) % 256) as u8,
        data2: (s * a % 256) as u8,
        data3: letters_from(s + a),
        data4: letters_from(s + 2 * a),
    };
    AccessRow {
        s_id: s,
        ai_type: a,
        info,
    }
}

/// Facility `f` of subscriber `s`.
pub fn facility_row(s: u64, f: u64) -> FacRow
    requires subscriber { s < 2 ^ 31 }
    requires kind { f ≤ 4 }
    ensures { result ≡ facility_at s f }
{
    FacRow {
        s_id: s,
        sf_type: f,
        is_active: if (s + f) % 7 == 0 { 0 } else { 1 },
        error_cntrl: ((s + 2 * f) % 256) as u8,
        data_a: ((3 * s + f) % 256) as u8,
        data_b: letters_from(s + 3 * f),
    }
}

/// Call row `k`, from 0, of facility `f` of subscriber `s`.
pub fn call_row(s: u64, f: u64, k: u64) -> CallRow
    requires subscriber { s < 2 ^ 31 }
    requires kind { f ≤ 4 }
    requires index { k < 3 }
    ensures { result ≡ call_at s f k }
{
    CallRow {
        s_id: s,
        sf_type: f,
        start_time: 8 * k,
        end_time: 8 * k + 1 + (s * f + k) % 8,
        numberx: 100 * s + 10 * f + k,
    }
}
