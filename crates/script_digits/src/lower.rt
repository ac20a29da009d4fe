//! Digits in lower case.
ghost use Rattle.std.specs.Prelude.{◌≡◌, ℕ, List, Ok, bit_or, length, map};
ghost use Rattle.hex.specs.Hex.{decode_of, encode_lower};

/// Makes characters lower case that are the hexadecimal digits of bytes: then they are what [`write_digits`](crate::write_digits) writes
/// for these bytes.
pub fn make_lower(digits: &mut [u8])
    ensures digits { (bytes : List ℕ) → decode_of digits.old ≡ Ok bytes
        → digits.new ≡ encode_lower bytes }
    ensures length { length digits.new ≡ length digits.old }
{
    for i in 0..digits.len() {
        digits[i] |= 32;
    }
}
