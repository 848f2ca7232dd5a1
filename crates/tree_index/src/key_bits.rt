//! Bits of keys.

ghost use Rattle.std.specs.Prelude.{◌≡◌, ◌≢◌, ◌+◌, ◌/◌, ◌<◌, ◌^◌};
ghost use Rattle.tree_index.specs.Shape.{bit_of};

/// The bit of the key at this place, counted from the lowest; 0 at a place over 63.
pub fn side(key: u64, bit: u64) -> u64
    ensures { result ≡ bit_of key bit }
{
    if bit < 64 { (key >> bit) % 2 } else { 0 }
}

/// The highest bit in which two keys differ.
pub fn highest_difference(a: u64, b: u64) -> u64
    requires differ { a ≢ b }
    ensures below { result < 64 }
    ensures above { a / 2 ^ (result + 1) ≡ b / 2 ^ (result + 1) }
    ensures here { a / 2 ^ result ≢ b / 2 ^ result }
{
    63 - u64::from((a ^ b).leading_zeros())
}
