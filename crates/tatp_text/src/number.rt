//! Numbers in decimal digits.

ghost use Rattle.std.specs.Prelude.{◌≡◌, ◌++◌, decimal, OnOk};
ghost use Rattle.tatp_text.specs.Number.{value_in, number_in, phone_in, phone_text};

use itoa::Buffer;
use std::alloc::AllocError;

/// How many digits a phone number has. A greater one prints with all its digits, and isn't read.
const PHONE_DIGITS: usize = 15;

/// The zeros before the digits of a short phone number.
const ZEROS: [u8; PHONE_DIGITS] = [b'0'; PHONE_DIGITS];

/// The number from `least` to `greatest` that one to `most` decimal digits say.
pub fn number_in(text: &[u8], most: usize, least: u64, greatest: u64) -> Option<u64>
    ensures { result ≡ number_in most least greatest text.now }
{
    if text.is_empty() || text.len() > most {
        return None;
    }
    let number = value_of(text)?;
    if least <= number && number <= greatest {
        Some(number)
    } else {
        None
    }
}

/// A phone number.
pub fn phone_in(text: &[u8]) -> Option<u64>
    ensures { result ≡ phone_in text.now }
{
    if text.len() != PHONE_DIGITS {
        return None;
    }
    value_of(text)
}

// The value of decimal digits, where they are digits and it fits.
fn value_of(text: &[u8]) -> Option<u64>
    ensures { result ≡ value_in text.now }
{
    let mut value = 0u64;
    for digit in text {
        if !digit.is_ascii_digit() {
            return None;
        }
        value = value
            .checked_mul(10)?
            .checked_add(u64::from(*digit - b'0'))?;
    }
    Some(value)
}

/// Appends a number in decimal digits, without zeros in front. What an `Err` leaves is of no use: a line that is being
/// made ends with it.
pub fn push_number(number: u64, line: &mut Vec<u8>) -> Result<(), AllocError>
    ensures { OnOk result (line.new.items ≡ line.old.items ++ decimal number) }
{
    let mut buffer = Buffer::new();
    line.extend_from_slice(buffer.format(number).as_bytes())
}

/// Appends a phone number. What an `Err` leaves is of no use, as for `push_number`.
pub fn push_phone(number: u64, line: &mut Vec<u8>) -> Result<(), AllocError>
    ensures { OnOk result (line.new.items ≡ line.old.items ++ phone_text number) }
{
    let mut buffer = Buffer::new();
    let digits = buffer.format(number).as_bytes();
    line.extend_from_slice(&ZEROS[digits.len().min(PHONE_DIGITS)..])?;
    line.extend_from_slice(digits)
}
