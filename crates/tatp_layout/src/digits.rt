//! The digits of a number that packs several fields.

ghost use Rattle.std.specs.Prelude.{◌≡◌, ◌≤◌};
ghost use Rattle.tatp_layout.specs.Digits.{to_digits};

// The lowest digits of a word in a base, the lowest first.
pub(crate) fn digits<const N: usize>(base: u64, word: u64) -> [u8; N]
    requires some { 1 ≤ base }
    requires bytes { base ≤ 256 }
    ensures { result ≡ to_digits base N word }
{
    let mut digits = [0; N];
    let mut rest = word;
    for i in 0..N {
        digits[i] = (rest % base) as u8;
        rest /= base;
    }
    digits
}
