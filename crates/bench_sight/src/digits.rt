//! Digits, compared as they stand.
ghost use Rattle.std.specs.Prelude.{◌≡◌, ℕ, List, Ok, Decides, bit_or, length, map, replicate};
ghost use Rattle.hex.specs.Hex.{decode_of};

/// Whether characters are the same in lower case.
fn are_same_in_lower_case(one: &[u8], other: &[u8]) -> bool
    ensures { Decides result (map (λ b. bit_or b 32) one.now ≡ map (λ b. bit_or b 32) other.now) }
{
    if one.len() != other.len() {
        return false;
    }
    for i in 0..one.len() {
        if one[i] | 32 != other[i] | 32 {
            return false;
        }
    }
    true
}

/// Whether digits spell the same bytes. Most are the same as they stand.
pub(crate) fn spell_the_same(one: &[u8], other: &[u8]) -> bool
    ensures { (bytes more : List ℕ) → decode_of one.now ≡ Ok bytes → decode_of other.now ≡ Ok more
        → Decides result (bytes ≡ more) }
{
    one == other || are_same_in_lower_case(one, other)
}

/// Whether digits spell zeros.
pub(crate) fn are_zeros(digits: &[u8]) -> bool
    ensures { (bytes : List ℕ) → decode_of digits.now ≡ Ok bytes
        → Decides result (bytes ≡ replicate (length bytes) 0) }
{
    for digit in digits {
        if *digit != b'0' {
            return false;
        }
    }
    true
}
