//! Numbers.
ghost use Rattle.std.specs.Prelude.{◌≤◌};

use crate::mistake::{Mistake, Why};
use crate::word::Word;

/// The digits of a number, and their base: those behind `0x` are hexadecimal.
fn base_of(text: &[u8]) -> (&[u8], u32)
    ensures low { 2 ≤ result.1 }
    ensures high { result.1 ≤ 36 }
{
    match text {
        [b'0', b'x' | b'X', digits @ ..] => (digits, 16),
        _ => (text, 10),
    }
}

/// The number that decimal digits, or hexadecimal ones behind `0x`, spell, or None where they spell none. One of over 64 bits is the
/// greatest.
pub fn read_number(text: &[u8]) -> Option<u64> {
    let (digits, base) = base_of(text);
    if digits.is_empty() {
        return None;
    }
    let mut number = 0u64;
    for digit in digits {
        let value = char::from(*digit).to_digit(base)?;
        number = number
            .saturating_mul(u64::from(base))
            .saturating_add(u64::from(value));
    }
    Some(number)
}

/// The number that a word is, which is at most so great. `what` says what it is to be: `a VID`.
pub fn number_at_most<'a>(
    word: Word<'a>,
    what: &'static str,
    most: u16,
) -> Result<u16, Mistake<'a>> {
    let found = word.text;
    let Some(number) = read_number(found) else {
        return Err(word.mistake(Why::NoNumber {
            what,
            found,
            most: u64::from(most),
        }));
    };
    match u16::try_from(number) {
        Ok(number) if number <= most => Ok(number),
        _ => Err(word.mistake(Why::TooGreat {
            what,
            found,
            most: u64::from(most),
        })),
    }
}

/// The TPID of four digits, with `0x` in front or without.
pub fn read_tpid(word: Word<'_>) -> Result<u16, Mistake<'_>> {
    let digits = word.text.strip_prefix(b"0x").unwrap_or(word.text);
    let mut number = 0u32;
    for digit in digits.iter().take(5) {
        number = number << 4 | char::from(*digit).to_digit(16).unwrap_or(0x1_0000);
    }
    match u16::try_from(number) {
        Ok(tpid) if digits.len() == 4 => Ok(tpid),
        _ => Err(word.mistake(Why::Unexpected {
            found: word.text,
            expected: "a TPID, four hexadecimal digits as in 8100",
        })),
    }
}
