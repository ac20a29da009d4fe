//! What is wrong in the parts of a line of a history. Places are counted from 0, and what is right gives the place behind it.
ghost use Rattle.std.specs.Prelude.{◌≤◌};

use crate::mistakes::HistoryMistake;
use script_lines::read_decimal;
use text_writing::Found;

/// The most digits of a frame's number, or of a count of replies.
const MOST_DIGITS: usize = 10;

/// The most digits of a GEM port.
const MOST_OF_GEM: usize = 5;

/// That something else is expected at a place.
pub(crate) fn unexpected(content: &[u8], place: usize, expected: &'static str) -> HistoryMistake {
    let found = match content.get(place) {
        Some(byte) => Found::Byte(*byte),
        None => Found::End,
    };
    HistoryMistake::Unexpected {
        column: place.saturating_add(1),
        found,
        expected,
    }
}

/// The bytes from a place on.
fn behind(content: &[u8], place: usize) -> &[u8] {
    content.get(place..).unwrap_or(&[])
}

/// How many of the bytes from a place on are decimal digits.
fn digits_from(content: &[u8], place: usize) -> usize {
    let behind = behind(content, place);
    behind
        .iter()
        .position(|byte| !byte.is_ascii_digit())
        .unwrap_or(behind.len())
}

/// The number of some decimal digits from a place on, where it has at most so many of them and isn't over a bound.
fn number_at(content: &[u8], place: usize, digits: usize, most: usize, bound: u64) -> Option<u64>
    requires { most ≤ 19 }
{
    let number = read_decimal(behind(content, place).get(..digits)?, most)?;
    if number <= bound { Some(number) } else { None }
}

/// A space at a place.
pub(crate) fn in_space(content: &[u8], place: usize) -> Result<usize, HistoryMistake> {
    match content.get(place) {
        Some(b' ') => Ok(place.saturating_add(1)),
        _ => Err(unexpected(content, place, "a space")),
    }
}

/// The number behind a mark and a space.
pub(crate) fn in_number(content: &[u8]) -> Result<(u64, usize), HistoryMistake> {
    let place = in_space(content, 1)?;
    let digits = digits_from(content, place);
    if digits == 0 {
        return Err(unexpected(content, place, "a decimal digit"));
    }
    match number_at(content, place, digits, MOST_DIGITS, u64::from(u32::MAX)) {
        Some(number) => Ok((number, place.saturating_add(digits))),
        None => Err(unexpected(content, place, "a number of at most 4294967295")),
    }
}

/// The GEM port at a place: a number, or `any`.
pub(crate) fn in_gem(content: &[u8], place: usize) -> Result<usize, HistoryMistake> {
    if behind(content, place).starts_with(b"any") {
        return Ok(place.saturating_add(3));
    }
    let digits = digits_from(content, place);
    if digits == 0 {
        return Err(unexpected(content, place, "a decimal digit or 'any'"));
    }
    match number_at(content, place, digits, MOST_OF_GEM, u64::from(u16::MAX)) {
        Some(_) => Ok(place.saturating_add(digits)),
        None => Err(unexpected(content, place, "a number of at most 65535")),
    }
}

/// What is wrong from a place on, where a line has to end.
pub(crate) fn in_end(content: &[u8], place: usize) -> Option<HistoryMistake> {
    if place < content.len() {
        Some(unexpected(content, place, "the line's end"))
    } else {
        None
    }
}

/// The place behind hexadecimal digits and `..`, if that stands behind them.
fn in_digits(content: &[u8], place: usize) -> Result<usize, HistoryMistake> {
    let bytes = behind(content, place);
    let digits = bytes
        .iter()
        .position(|byte| !byte.is_ascii_hexdigit())
        .unwrap_or(bytes.len());
    let end = place.saturating_add(digits);
    if digits % 2 != 0 {
        return Err(unexpected(content, end, "a hexadecimal digit"));
    }
    match behind(content, end) {
        [b'.', b'.', ..] => Ok(end.saturating_add(2)),
        [b'.', ..] => Err(unexpected(content, end.saturating_add(1), "a second '.'")),
        _ => Ok(end),
    }
}

/// What is wrong in hexadecimal digits from a place on, behind which `..` may stand.
pub(crate) fn in_bytes(content: &[u8], place: usize) -> Option<HistoryMistake> {
    match in_digits(content, place) {
        Ok(end)
            if content
                .get(..end)
                .is_some_and(|front| front.ends_with(b"..")) => { in_end(content, end) }
        Ok(end) if end < content.len() => Some(unexpected(content, end, "a hexadecimal digit")),
        Ok(_) => None,
        Err(mistake) => Some(mistake),
    }
}

/// The number at a place, one of a frame that isn't under another, and the place behind it.
pub(crate) fn in_next_number(
    content: &[u8],
    place: usize,
    least: u64,
) -> Result<(u64, usize), HistoryMistake> {
    let digits = digits_from(content, place);
    if digits == 0 {
        return Err(unexpected(content, place, "a decimal digit"));
    }
    match number_at(content, place, digits, MOST_DIGITS, u64::from(u32::MAX)) {
        Some(number) if number >= least => Ok((number, place.saturating_add(digits))),
        Some(_) => Err(unexpected(content, place, "a number over the one before it")),
        None => Err(unexpected(content, place, "a number of at most 4294967295")),
    }
}

/// The place of the first number behind a GEM port and the bytes of a frame.
pub(crate) fn place_of_numbers(content: &[u8]) -> Result<usize, HistoryMistake> {
    let gem = in_gem(content, in_space(content, 1)?)?;
    let bytes = in_digits(content, in_space(content, gem)?)?;
    in_space(content, bytes)
}

/// What is wrong in ascending numbers from a place on, which single spaces separate.
pub(crate) fn in_numbers(content: &[u8], place: usize) -> Option<HistoryMistake> {
    let (mut place, mut least) = (place, 0);
    for _ in 0..content.len() {
        match in_next_number(content, place, least) {
            Ok((_, end)) if end >= content.len() => return None,
            Ok((number, end)) => {
                place = match in_space(content, end) {
                    Ok(behind) => behind,
                    Err(mistake) => return Some(mistake),
                };
                least = number.saturating_add(1);
            }
            Err(mistake) => return Some(mistake),
        }
    }
    None
}
