//! The numbers of frames.
ghost use Rattle.std.specs.Prelude.{◌≡◌, ◌∷◌, [], MatchOption, if◌then◌else◌, nat_le, true};
ghost use Rattle.std.specs.Option.{is_some, option_and_then};
ghost use Rattle.bench_history.specs.Among.{IsFirstWord, numbers_in};
ghost use Rattle.bench_history.specs.Words.{number_of};

use crate::number::read_count;
use crate::words::split_word;
use std::marker::Model;

/// The numbers of frames that a walk hasn't come to, in ascending order. They are borrowed from the text.
#[derive(Drop)]
pub struct Numbers<'a> {
    text: &'a [u8],
}

impl<'a> Model for Numbers<'a> {
    ghost use Rattle.std.specs.Prelude.{◌≡◌, ◌||◌, ◌==◌, ℕ, List, true, length};
    ghost use Rattle.std.specs.Option.{is_some};
    ghost use Rattle.bench_history.specs.Among.{left_in, numbers_in};

    ghost Value = { List ℕ };

    ghost view = { λ n. left_in n.text.now };

    ghost invariant = { λ n. (length n.text.now == 0 || is_some (numbers_in n.text.now)) ≡ true };
}

impl<'a> Numbers<'a> {
    /// The numbers of a text.
    pub(crate) fn of(text: &'a [u8]) -> Self
        requires { is_some (numbers_in text.now) ≡ true }
        ensures { numbers_in text.now ≡ Some result }
    {
        Numbers { text }
    }

    /// Takes the least number off, or None where there is none left.
    pub fn take_least(&mut self) -> Option<u32>
        ensures { MatchOption result
            ((self.old ≡ []) × (self.new ≡ []))
            (λ number. self.old ≡ number ∷ self.new) }
    {
        if self.text.is_empty() {
            return None;
        }
        let (word, behind) = next_word(self.text);
        self.text = behind;
        read_count(word)
    }
}

/// The first word of a text, and what stands behind its space: nothing where it is the last.
fn next_word(text: &[u8]) -> (&[u8], &[u8])
    ensures { IsFirstWord text.now result.0.now result.1.now }
{
    let (word, behind) = split_word(text);
    match behind {
        Some(behind) => (word, behind),
        None => (word, &[]),
    }
}

/// The number that a word names, if it is no less than another.
fn read_from(word: &[u8], least: u64) -> Option<u32>
    ensures { result
        ≡ option_and_then (λ n. if nat_le least n then Some n else None) (number_of word.now) }
{
    let number = read_count(word)?;
    if u64::from(number) < least {
        return None;
    }
    Some(number)
}

/// Whether words name numbers, and these ascend.
pub(crate) fn are_rising(text: &[u8]) -> bool
    ensures { result ≡ is_some (numbers_in text.now) }
{
    let mut rest = Some(text);
    let mut least = 0;
    while let Some(words) = rest {
        let (word, behind) = split_word(words);
        let Some(number) = read_from(word, least) else {
            return false;
        };
        least = u64::from(number) + 1;
        rest = behind;
    }
    true
}
