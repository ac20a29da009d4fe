//! Numbers in decimal digits, and that which a line names a port by.
ghost use Rattle.std.specs.Prelude.{◌≡◌, ◌≤◌};
ghost use Rattle.script_lines.specs.Line.{decimal_of, port_of};

/// The number that decimal digits spell, leading zeros among them; None where they spell none, or there are over `most`, which is 19 or
/// fewer.
pub fn read_decimal(digits: &[u8], most: usize) -> Option<u64>
    requires { most ≤ 19 }
    ensures { result ≡ decimal_of most digits.now }
{
    if digits.is_empty() || digits.len() > most {
        return None;
    }
    let mut number = 0;
    for digit in digits {
        if !digit.is_ascii_digit() {
            return None;
        }
        number = 10 * number + u64::from(*digit - b'0');
    }
    Some(number)
}

/// The number of a port, which one to five decimal digits spell, leading zeros among them; None where they spell none of 16 bits.
pub fn read_port(digits: &[u8]) -> Option<u16>
    ensures { result ≡ port_of digits.now }
{
    u16::try_from(read_decimal(digits, 5)?).ok()
}
