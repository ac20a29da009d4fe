//! The digits of bytes.
ghost use Rattle.std.specs.Prelude.{◌≡◌, ◌*◌, ◌/◌, ◌%◌, length, slice_index};
ghost use Rattle.hex.specs.Hex.{encode_lower, lower_digits};

/// The two digits of a byte, the higher in the low half. Both are worked on at once, side by side in one number.
fn digits_of(byte: u8) -> u16
    ensures high { result % 256 ≡ slice_index lower_digits (byte / 16) }
    ensures low { result / 256 ≡ slice_index lower_digits (byte % 16) }
{
    let values = u16::from(byte / 16) + u16::from(byte % 16) * 256;
    let are_letters = (values + 0x0606) / 16 & 0x0101;
    values + 0x3030 + are_letters * 39
}

/// Writes the hexadecimal digits of bytes, in lower case, two for each, the higher first. There is room for twice as many digits as
/// there are bytes.
pub fn write_digits(bytes: &[u8], digits: &mut [u8])
    requires { length digits.old ≡ 2 * length bytes.now }
    ensures { digits.new ≡ encode_lower bytes.now }
{
    for i in 0..bytes.len() {
        let pair = digits_of(bytes[i]);
        digits[2 * i] = (pair % 256) as u8;
        digits[2 * i + 1] = (pair / 256) as u8;
    }
}
