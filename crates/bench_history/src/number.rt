//! The number that a line names a frame or a count of replies by.
ghost use Rattle.std.specs.Prelude.{◌≡◌};
ghost use Rattle.bench_history.specs.Words.{number_of};

use script_lines::read_decimal;

/// The number that one to ten decimal digits spell, leading zeros among them; None where they spell none of 32 bits.
pub(crate) fn read_count(digits: &[u8]) -> Option<u32>
    ensures { result ≡ number_of digits.now }
{
    u32::try_from(read_decimal(digits, 10)?).ok()
}
