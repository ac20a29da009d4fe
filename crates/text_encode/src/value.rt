//! The value of an attribute in words.
use crate::dscp::read_mapping;
use managed_entity::{AttributeKind, Description};
use text_words::{Choices, Mistake, Why, Word, number_at_most, read_number};

/// The most bytes of a value.
pub(crate) const MOST: usize = 24;

/// The bytes of a number, of so many bytes.
fn number_bytes(number: u16, width: usize) -> [u8; MOST] {
    let mut bytes = [0; MOST];
    let [high, low] = number.to_be_bytes();
    if width == 1 {
        bytes[0] = low;
    } else {
        bytes[0] = high;
        bytes[1] = low;
    }
    bytes
}

/// The number that a word is, or that it names.
fn read_code<'a>(
    description: &'static Description,
    width: usize,
    word: Word<'a>,
) -> Result<u16, Mistake<'a>> {
    let named = description.values.iter().find(|it| word.is(it.word));
    if let Some(named) = named {
        return Ok(named.value);
    }
    let most = if width == 1 { 0xff } else { u16::MAX };
    if read_number(word.text).is_none() && !description.values.is_empty() {
        return Err(word.mistake(Why::NoSuch {
            found: word.text,
            choices: Choices::Values(description.values),
        }));
    }
    number_at_most(word, description.word, most)
}

/// The bytes of an attribute's value, of so many bytes, in front of zeros.
pub(crate) fn read_value<'a>(
    description: &'static Description,
    width: usize,
    word: Word<'a>,
) -> Result<[u8; MOST], Mistake<'a>> {
    match description.kind {
        AttributeKind::Number | AttributeKind::Pointer | AttributeKind::Tpid => {
            let number = read_code(description, width, word)?;
            Ok(number_bytes(number, width))
        }
        AttributeKind::DscpMapping => read_mapping(word),
        AttributeKind::Table => Err(word.mistake(Why::Rule {
            words: "a table is given its entries one by one, by entry and remove-entry",
        })),
    }
}
