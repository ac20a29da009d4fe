//! The words of a line, one after the other.
ghost use Rattle.std.specs.Prelude.{◌≤◌, length};
ghost use Rattle.std.specs.Iterator.{at_most};

use crate::mistake::{Mistake, Why};
use crate::word::{Word, characters_in};

/// The words of a line that are left, in order. Blanks, which are spaces and tabs, part words, but not within parentheses; `#`
/// begins a remark, which has no words.
#[derive(Clone, Copy)]
pub struct Words<'a> {
    rest: &'a [u8],
    column: usize,
}

/// Whether a byte parts words.
fn is_blank(byte: u8) -> bool {
    byte == b' ' || byte == b'\t'
}

/// How many of the first bytes are blanks.
fn blanks_before(text: &[u8]) -> usize
    ensures { result ≤ length text.now }
{
    text.iter()
        .position(|byte| !is_blank(*byte))
        .unwrap_or(text.len())
}

/// How many of the first bytes are one word.
fn word_length(text: &[u8]) -> usize
    ensures { result ≤ length text.now }
{
    let mut open = 0usize;
    let mut length = 0usize;
    for byte in text {
        if *byte == b'#' || open == 0 && is_blank(*byte) {
            break;
        }
        match *byte {
            b'(' => open = open.saturating_add(1),
            b')' => open = open.saturating_sub(1),
            _ => {}
        }
        length = length.saturating_add(1);
    }
    length.min(text.len())
}

/// The bytes without blanks at their end.
fn trimmed(text: &[u8]) -> &[u8] {
    let end = text
        .iter()
        .rposition(|byte| !is_blank(*byte))
        .map_or(0, |last| last.saturating_add(1));
    text.split_at(end.min(text.len())).0
}

impl<'a> Words<'a> {
    /// The words of a line.
    pub fn of(line: &'a [u8]) -> Self {
        Words {
            rest: line,
            column: 1,
        }
    }

    /// The words within a word, as in its parentheses.
    pub fn within(word: Word<'a>) -> Self {
        Words {
            rest: word.text,
            column: word.column,
        }
    }

    /// The column behind the last word that is left, or where that would begin.
    pub fn end(self) -> usize {
        let mut end = self.column;
        for word in self {
            end = word.end();
        }
        end
    }

    /// What is wrong behind the last word that was given.
    pub fn mistake(&self, why: Why<'a>) -> Mistake<'a> {
        Mistake {
            column: self.column,
            why,
        }
    }

    /// The next word, or what is wrong where there is none: that this was expected.
    pub fn expect(&mut self, expected: &'static str) -> Result<Word<'a>, Mistake<'a>> {
        let end = self.mistake(Why::Missing { expected });
        self.next().ok_or(end)
    }
}

impl<'a> Iterator for Words<'a> {
    type Item = Word<'a>;

    ghost remaining = { λ s. at_most (length s.rest.now) };

    fn next(&mut self) -> Option<Word<'a>> {
        let blanks = blanks_before(self.rest);
        let (_, rest) = self.rest.split_at(blanks);
        let length = word_length(rest);
        if length == 0 {
            return None;
        }
        let (text, behind) = rest.split_at(length);
        let column = self.column.saturating_add(blanks);
        self.rest = behind;
        self.column = column.saturating_add(characters_in(text));
        Some(Word {
            text: trimmed(text),
            column,
        })
    }
}
