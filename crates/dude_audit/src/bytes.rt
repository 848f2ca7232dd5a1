//! Bytes up to one, and numbers.

ghost use Rattle.dude_audit.specs.Bytes.{HasNo, IsFirstAt};
ghost use Rattle.dude_base.specs.declared.limits.TheConstants.{MAX_NUMBER};
ghost use Rattle.std.specs.Prelude.{◌≡◌, ◌≤◌, ℕ, IfSome, IfNone, decimal};

use dude_base::limits::MAX_NUMBER;
use tatp_text::number_in;

/// How many digits the greatest number has.
const NUMBER_DIGITS: usize = 15;

/// Where the first such byte stands.
pub(crate) fn find_byte(bytes: &[u8], byte: u8) -> Option<usize>
    ensures found { IfSome result (IsFirstAt byte bytes.now) }
    ensures none { IfNone result (HasNo byte bytes.now) }
{
    bytes.iter().position(|b| *b == byte)
}

/// A number of at most 48 bits in decimal digits, without zeros in front.
pub(crate) fn numeral(text: &[u8]) -> Option<u64>
    ensures said { IfSome result (λ n. (n ≤ MAX_NUMBER) × (text.now ≡ decimal n)) }
    ensures none { IfNone result ((n : ℕ) → n ≤ MAX_NUMBER → text.now ≡ decimal n → ⊥) }
{
    if text.len() > 1 && text[0] == b'0' {
        return None;
    }
    number_in(text, NUMBER_DIGITS, 0, MAX_NUMBER)
}
