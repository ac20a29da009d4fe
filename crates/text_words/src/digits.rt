//! Bytes in hexadecimal digits.
use crate::mistake::{Mistake, Why};
use crate::word::{Word, characters_in};
use crate::words::Words;
use script_digits::make_lower;
use std::alloc::AllocError;

/// What is wrong at the first character of a word that is no hexadecimal digit, if one isn't.
fn bad_digit(word: Word<'_>) -> Option<Mistake<'_>> {
    let place = word.text.iter().position(|byte| !byte.is_ascii_hexdigit())?;
    let (front, found) = word.text.split_at(place);
    let (first, _) = found.split_at(1.min(found.len()));
    Some(Mistake {
        column: word.column.saturating_add(characters_in(front)),
        why: Why::Unexpected {
            found: first,
            expected: "a hexadecimal digit",
        },
    })
}

/// Appends the hexadecimal digits of words, in lower case and without blanks between them. Some is the first mistake: a character
/// that is no digit, or an odd number of them.
pub fn put_digits<'a>(
    words: Words<'a>,
    digits: &mut Vec<u8>,
) -> Result<Option<Mistake<'a>>, AllocError> {
    let before = digits.len();
    let mut end = words.mistake(Why::Unclosed);
    for word in words {
        if let Some(mistake) = bad_digit(word) {
            return Ok(Some(mistake));
        }
        digits.extend_from_slice(word.text)?;
        end.column = word.column.saturating_add(word.text.len());
    }
    let found = digits.len().saturating_sub(before);
    if found % 2 != 0 {
        end.why = Why::Count {
            found,
            unit: "digits",
            expected: "an even number, two for each byte",
        };
        return Ok(Some(end));
    }
    let begin = before.min(digits.len());
    make_lower(&mut digits[begin..]);
    Ok(None)
}
