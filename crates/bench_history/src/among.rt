//! A frame that left, and is one of several.
ghost use Rattle.std.specs.Prelude.{◌≡◌, ◌≤◌, IfOk, Some, length, true};
ghost use Rattle.script_lines.specs.Line.{line_limit};
ghost use Rattle.bench_history.specs.Among.{are_in_order, digits_in, numbers_in, one_of};

use crate::digits::Digits;
use crate::extent::Extent;
use crate::numbers::{Numbers, are_rising};
use crate::words::{read_seen, space_in};
use std::alloc::{AllocError, Global};
use std::marker::Model;

/// A frame as it was seen to leave, and the frames of which it is one, by their numbers. Both are borrowed from the text.
#[derive(Drop)]
pub struct Among<'a> {
    text: &'a [u8],
    // How many digits of the frame stand at the front: each of its words is found without a look at the others.
    digits: u16,
    // Where the numbers begin.
    numbers: u16,
}

impl<'a> Model for Among<'a> {
    ghost use Rattle.std.specs.Prelude.{◌≡◌, ◌≤◌, Ok, Some, drop, length, take};
    ghost use Rattle.hex.specs.Hex.{decode_of};
    ghost use Rattle.script_lines.specs.Line.{line_limit};
    ghost use Rattle.bench_history.specs.Among.{OneOf, numbers_in, told_in};

    ghost Value = { OneOf };

    ghost view = { λ a. told_in a.text.now };

    ghost invariant = { λ a. (length a.text.now ≤ line_limit) × (a.digits ≤ length a.text.now)
        × (a.numbers ≤ length a.text.now)
        × (decode_of (take a.digits a.text.now) ≡ Ok (told_in a.text.now).frame)
        × (numbers_in (drop a.numbers a.text.now) ≡ Some (told_in a.text.now).numbers) };
}

/// How many digits a word has: all its characters, or those in front of two dots.
fn digits_in(extent: Extent, length: usize) -> usize
    ensures { result ≡ digits_in extent length }
{
    match extent {
        Extent::Whole => length,
        Extent::Front => length.saturating_sub(2),
    }
}

impl<'a> Among<'a> {
    /// The frame and the numbers that characters spell, by `HEX N N ..` or `HEX.. N N ..`, and how much of it was seen.
    pub(crate) fn of(text: &'a [u8]) -> Option<(Extent, Self)>
        requires { length text.now ≤ line_limit }
        ensures { result ≡ one_of text.now }
    {
        let space = space_in(text)?;
        let (extent, _frame) = read_seen(text.split_at(space).0)?;
        if !are_rising(text.split_at(space + 1).1) {
            return None;
        }
        let among = Among {
            text,
            digits: digits_in(extent, space) as u16,
            numbers: (space + 1) as u16,
        };
        Some((extent, among))
    }

    /// The bytes of the frame, as it was seen.
    pub fn frame(&self) -> Digits<'a>
        ensures { result ≡ self.now.frame }
    {
        Digits::decoded(self.text.split_at(usize::from(self.digits)).0)
    }

    /// The words that name the frames of which it is one.
    fn words(&self) -> &'a [u8]
        ensures { numbers_in result.now ≡ Some self.now.numbers }
    {
        self.text.split_at(usize::from(self.numbers)).1
    }

    /// The numbers of the frames of which it is one: one or more, in ascending order.
    pub fn numbers(&self) -> Numbers<'a>
        ensures { result ≡ self.now.numbers }
    {
        Numbers::of(self.words())
    }

    /// The same in a vector.
    pub(crate) fn to_vec(&self, alloc: Global) -> Result<Vec<u32>, AllocError>
        ensures numbers { IfOk result (λ frames. frames.items ≡ self.now.numbers) }
        ensures order { are_in_order self.now.numbers ≡ true }
    {
        let mut frames = Vec::new(alloc);
        let mut numbers = Numbers::of(self.words());
        while let Some(number) = numbers.take_least() {
            frames.push(number)?;
        }
        Ok(frames)
    }
}
