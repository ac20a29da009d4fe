//! Bytes from their digits.
ghost use Rattle.std.specs.Prelude.{◌≡◌, ◌≢◌, ◌*◌, ℕ, Ok, true, false, length, slice_index, MatchResult};
ghost use Rattle.std.specs.List.{list_all};
ghost use Rattle.std.specs.Result.{is_ok};
ghost use Rattle.hex.specs.Hex.{decode_of, decode_pairs, decode_sized, is_hex_digit, pair_value};

/// Whether a character is a digit, of either case.
fn is_digit(character: u8) -> bool
    ensures { result ≡ is_hex_digit character }
{
    let is_numeral = character.wrapping_sub(b'0') < 10;
    let is_letter = (character | 32).wrapping_sub(b'a') < 6;
    is_numeral | is_letter
}

/// Whether all characters are digits. Every one is looked at.
fn are_digits(characters: &[u8]) -> bool
    ensures { result ≡ list_all is_hex_digit characters.now }
{
    let mut are_digits = true;
    for character in characters {
        are_digits &= is_digit(*character);
    }
    are_digits
}

/// Whether characters are the hexadecimal digits of bytes: an even number of digits, of either case.
pub fn are_pairs(characters: &[u8]) -> bool
    ensures { result ≡ is_ok (decode_of characters.now) }
{
    characters.len() % 2 == 0 && are_digits(characters)
}

/// The byte of two digits. Both are worked on at once, side by side in one number.
fn byte_of(high: u8, low: u8) -> u8
    requires high { is_hex_digit high ≡ true }
    requires low { is_hex_digit low ≡ true }
    ensures { (place : ℕ) → pair_value high low place ≡ Ok result }
{
    let digits = u16::from_le_bytes([high, low]);
    let values = (digits & 0x0f0f) + 9 * ((digits >> 6) & 0x0303);
    (values % 16 * 16 + values / 256) as u8
}

/// Puts the bytes of digits into their place.
fn put_bytes(digits: &[u8], bytes: &mut [u8])
    requires digits { list_all is_hex_digit digits.now ≡ true }
    requires length { length digits.now ≡ 2 * length bytes.old }
    ensures { decode_pairs 0 digits.now ≡ Ok bytes.new }
{
    for i in 0..bytes.len() {
        bytes[i] = byte_of(digits[2 * i], digits[2 * i + 1]);
    }
}

/// Reads hexadecimal digits of either case, two for each byte, the higher first. Whether there are twice as many digits as bytes, and
/// all characters are digits; if not, the bytes are left as they were.
pub fn read_digits(digits: &[u8], bytes: &mut [u8]) -> bool
    ensures { MatchResult (decode_sized digits.now (length bytes.old))
        (λ read. (result ≡ true) × (bytes.new ≡ read))
        (λ _. (result ≡ false) × (bytes.new ≡ bytes.old)) }
{
    if digits.len() % 2 != 0 || digits.len() / 2 != bytes.len() || !are_digits(digits) {
        return false;
    }
    put_bytes(digits, bytes);
    true
}
