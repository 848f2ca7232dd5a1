//! Which words the records of each kind of table may hold.

ghost use Rattle.std.specs.Prelude.{◌≡◌, ◌≤◌, ◌<◌};
ghost use Rattle.tatp_check.specs.Tests.{access_word, are_letters, call_word, facility_word, is_id, is_kind_key, number_word, subscriber_word};

const PHONES: u64 = 1_000_000_000_000_000;

pub(crate) fn is_subscriber_word(offset: u64, word: u64) -> bool
    ensures { result ≡ subscriber_word offset word }
{
    match offset {
        0 => is_id(word),
        2 => word < 1 << 50,
        4 => word < 1 << 16,
        5 | 6 => word < 1 << 32,
        7 => word < PHONES,
        _ => true,
    }
}

pub(crate) fn is_number_word(offset: u64, word: u64) -> bool
    ensures { result ≡ number_word offset word }
{
    match offset {
        0 => word < PHONES,
        2 => is_id(word),
        _ => true,
    }
}

pub(crate) fn is_access_word(offset: u64, word: u64) -> bool
    ensures { result ≡ access_word offset word }
{
    match offset {
        0 => is_kind_key(word),
        2 => are_letters(3, word / 65_536),
        3 => are_letters(5, word),
        _ => true,
    }
}

pub(crate) fn is_facility_word(offset: u64, word: u64) -> bool
    ensures { result ≡ facility_word offset word }
{
    match offset {
        0 => is_kind_key(word),
        2 => word < 1 << 24 && word % 256 <= 1,
        3 => are_letters(5, word),
        _ => true,
    }
}

pub(crate) fn is_call_word(offset: u64, word: u64) -> bool
    ensures { result ≡ call_word offset word }
{
    match offset {
        0 => 12 <= word && word < 12 << 32,
        2 => 1 <= word && word <= 24,
        3 => word < PHONES,
        _ => true,
    }
}

fn is_id(word: u64) -> bool
    ensures { result ≡ is_id word }
{
    1 <= word && word < 1 << 32
}

fn is_kind_key(key: u64) -> bool
    ensures { result ≡ is_kind_key key }
{
    4 <= key && key < 4 << 32
}

// Whether the word is so many letters, a byte each, and no more.
fn are_letters(count: u64, word: u64) -> bool
    requires { count ≤ 8 }
    ensures { result ≡ are_letters count word }
{
    let mut rest = word;
    for _i in 0..count {
        let byte = rest % 256;
        if byte < 65 || 90 < byte {
            return false;
        }
        rest /= 256;
    }
    rest == 0
}
