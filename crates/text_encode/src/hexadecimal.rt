//! Messages and frames in hexadecimal digits.
use crate::frame::{put_front, read_port_word};
use crate::identifiers::Identifiers;
use crate::output::Output;
use std::alloc::AllocError;
use text_words::{Mistake, Why, Word, Words, put_digits};

/// The digits of a message without its trailer.
const UNTRAILED: usize = 80;

/// The digits of a message without the last four bytes of its trailer, and of a whole one.
const WHOLE: [usize; 2] = [88, 96];

/// The digits of the trailer (ITU-T G.988, clause 11.2), whose last four bytes are zero.
const TRAILER: &[u8] = b"0000002800000000";

/// Puts the digits of words, or the mistake in them.
fn put_words(words: Words<'_>, output: &mut Output) -> Result<(), AllocError> {
    match put_digits(words, &mut output.script)? {
        Some(mistake) => output.mistakes.put(&mistake),
        None => Ok(()),
    }
}

/// The identifier that a message begins with, by its digits.
fn identifier_in(digits: &[u8]) -> Option<u16> {
    let [a, b, c, d, ..] = digits else {
        return None;
    };
    let mut number = 0u32;
    for digit in [*a, *b, *c, *d] {
        number = number << 4 | char::from(digit).to_digit(16)?;
    }
    u16::try_from(number).ok()
}

/// Fills a message that is short, whose digits begin with this word: with zeros up to its trailer, and with that.
fn fill(first: Word<'_>, begin: usize, output: &mut Output) -> Result<(), AllocError> {
    let found = output.script.len().saturating_sub(begin);
    if WHOLE.contains(&found) {
        return Ok(());
    }
    if found > UNTRAILED {
        return output.mistakes.put(&first.mistake(Why::Count {
            found: found / 2,
            unit: "bytes",
            expected: "a message of 48 or 44, or one of up to 40, which is filled (raw sends any)",
        }));
    }
    for _ in found..UNTRAILED {
        output.script.push(b'0')?;
    }
    output.script.extend_from_slice(TRAILER)
}

/// `o HEX` or `raw HEX`, behind its first word: a message whose digits stand there. The identifiers go on from its own.
pub(crate) fn put_message(
    first: Word<'_>,
    is_raw: bool,
    words: Words<'_>,
    identifiers: &mut Identifiers,
    output: &mut Output,
) -> Result<(), AllocError> {
    output.script.extend_from_slice(b"o ")?;
    let begin = output.script.len();
    let mut ahead = words;
    let digits_word = ahead.next().unwrap_or(first);
    put_words(words, output)?;
    if !is_raw {
        fill(digits_word, begin, output)?;
    }
    let (_, digits) = output.script.split_at(begin.min(output.script.len()));
    if let Some(identifier) = identifier_in(digits) {
        let _ = identifiers.take(Some(identifier));
    }
    Ok(())
}

/// `f PORT HEX`, behind its first word.
pub(crate) fn put_frame_bytes(words: Words<'_>, output: &mut Output) -> Result<(), AllocError> {
    let mut words = words;
    let Some(port) = read_port_word(&mut words, output)? else {
        return Ok(());
    };
    put_front(port, output)?;
    put_words(words, output)
}
