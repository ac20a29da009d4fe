//! A word of a line.
use crate::choices::Choices;
use crate::mistake::{Mistake, Why};

/// A word of a line, and where it stands.
#[derive(Clone, Copy)]
pub struct Word<'a> {
    /// Its bytes. Blanks are among them within parentheses alone.
    pub text: &'a [u8],
    /// The column of its first character, from 1.
    pub column: usize,
}

/// How many characters bytes are, as UTF-8 counts them.
pub(crate) fn characters_in(text: &[u8]) -> usize {
    text.iter().filter(|byte| **byte & 0xc0 != 0x80).count()
}

impl<'a> Word<'a> {
    /// Whether it is this word.
    pub fn is(&self, text: &str) -> bool {
        self.text == text.as_bytes()
    }

    /// What is wrong with it.
    pub fn mistake(&self, why: Why<'a>) -> Mistake<'a> {
        Mistake {
            column: self.column,
            why,
        }
    }

    /// The column behind its last character.
    pub fn end(&self) -> usize {
        self.column.saturating_add(characters_in(self.text))
    }

    /// The part behind its first so many bytes, or nothing where it has fewer.
    fn behind(&self, count: usize) -> Word<'a> {
        let (front, rest) = self.text.split_at(count.min(self.text.len()));
        Word {
            text: rest,
            column: self.column.saturating_add(characters_in(front)),
        }
    }

    /// A word `NAME=VALUE` as its name and its value, or None where it has no equals sign.
    pub fn split_value(&self) -> Option<(Word<'a>, Word<'a>)> {
        let equals = self.text.iter().position(|byte| *byte == b'=')?;
        let (name, _) = self.text.split_at(equals);
        let name = Word {
            text: name,
            column: self.column,
        };
        Some((name, self.behind(equals.saturating_add(1))))
    }

    /// The place of it among words, from 0, or None where it is none of them.
    pub fn place_in(&self, words: &[&str]) -> Option<usize> {
        words.iter().position(|it| self.is(it))
    }

    /// The place of it among words, from 0.
    pub fn one_of(&self, words: &'static [&'static str]) -> Result<usize, Mistake<'a>> {
        match self.place_in(words) {
            Some(place) => Ok(place),
            None => Err(self.no_such(words)),
        }
    }

    /// Puts what it says into a slot, where nothing is yet.
    pub fn put_into<T: Drop>(&self, slot: &mut Option<T>, value: T) -> Result<(), Mistake<'a>> {
        if slot.is_some() {
            return Err(self.mistake(Why::Twice { found: self.text }));
        }
        *slot = Some(value);
        Ok(())
    }

    /// What is wrong with it where it is none of these.
    pub fn no_such(&self, choices: &'static [&'static str]) -> Mistake<'a> {
        self.mistake(Why::NoSuch {
            found: self.text,
            choices: Choices::Words(choices),
        })
    }

    /// Its part in front of the equals sign, or the whole where there is none.
    pub fn name(&self) -> Word<'a> {
        match self.split_value() {
            Some((name, _)) => name,
            None => *self,
        }
    }

    /// What stands before and behind the first of these bytes, or None where it isn't there.
    pub fn split_at_byte(&self, byte: u8) -> Option<(Word<'a>, Word<'a>)> {
        let place = self.text.iter().position(|found| *found == byte)?;
        let (front, _) = self.text.split_at(place);
        let front = Word {
            text: front,
            column: self.column,
        };
        Some((front, self.behind(place.saturating_add(1))))
    }

    /// A word `NAME(..)` as its name and what stands in the parentheses, or None where it has none. The second is Err where the
    /// parenthesis isn't closed.
    pub fn split_group(&self) -> Option<(Word<'a>, Result<Word<'a>, Mistake<'a>>)> {
        let (name, inside) = self.split_at_byte(b'(')?;
        let Some(text) = inside.text.strip_suffix(b")") else {
            return Some((name, Err(self.mistake(Why::Unclosed))));
        };
        let inside = Word {
            text,
            column: inside.column,
        };
        Some((name, Ok(inside)))
    }
}
