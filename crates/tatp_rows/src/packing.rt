//! Several fields are packed into one number.

ghost use Rattle.std.specs.Prelude.{◌≡◌, ◌<◌, ◌≤◌, ◌^◌, All, length};
ghost use Rattle.tatp_layout.specs.Digits.{from_digits};

/// The number that has these digits in a base, the lowest first.
pub fn packed(base: u64, digits: &[u8]) -> u64
    requires base { 2 ≤ base }
    requires digits { All (λ d. d < base) digits.now }
    requires fits { base ^ length digits.now ≤ 2 ^ 64 }
    ensures { result ≡ from_digits base digits.now }
{
    let mut number = 0;
    for done in 0..digits.len() {
        number = number * base + digits[digits.len() - 1 - done] as u64;
    }
    number
}
