//! Bytes by their digits.
ghost use Rattle.std.specs.Prelude.{◌≡◌, ◌≤◌, ◌==◌, Ok, length, true};
ghost use Rattle.std.specs.Result.{is_ok};
ghost use Rattle.hex.specs.Hex.{decode_of};
ghost use Rattle.script_lines.specs.Line.{line_limit, spelled_bytes};

use script_digits::are_pairs;
use script_lines::{MOST_SPELLED, read_bytes};
use std::marker::Model;

/// Bytes by their hexadecimal digits in a history, of either case, two for each byte. The digits are borrowed from the text.
/// Contracts see the bytes.
#[derive(Debug, Drop)]
pub struct Digits<'a> {
    digits: &'a [u8],
}

impl<'a> Model for Digits<'a> {
    ghost use Rattle.std.specs.Prelude.{◌≡◌, ◌≤◌, ℕ, List, [], true, length};
    ghost use Rattle.std.specs.Result.{is_ok, result_unwrap_or};
    ghost use Rattle.hex.specs.Hex.{decode_of};
    ghost use Rattle.script_lines.specs.Line.{line_limit};

    ghost Value = { List ℕ };

    ghost view = { λ d. result_unwrap_or (decode_of d.digits.now) [] };

    ghost invariant = { λ d.
        (is_ok (decode_of d.digits.now) ≡ true) × (length d.digits.now ≤ line_limit) };
}

impl<'a> Digits<'a> {
    /// The bytes that characters spell, or None where they are no digits or an odd number of them.
    pub(crate) fn of(characters: &'a [u8]) -> Option<Self>
        requires { length characters.now ≤ line_limit }
        ensures { result ≡ spelled_bytes characters.now }
    {
        if !are_pairs(characters) {
            return None;
        }
        Some(Digits { digits: characters })
    }

    /// The bytes of digits that are known to spell some.
    pub(crate) fn decoded(digits: &'a [u8]) -> Self
        requires spelled { is_ok (decode_of digits.now) ≡ true }
        requires short { length digits.now ≤ line_limit }
        ensures { decode_of digits.now ≡ Ok result }
    {
        Digits { digits }
    }

    /// How many bytes there are.
    pub fn len(&self) -> usize
        ensures { result ≡ length self.now }
    {
        self.digits.len() / 2
    }

    /// Whether there are none.
    pub fn is_empty(&self) -> bool
        ensures { result ≡ (length self.now == 0) }
    {
        self.digits.is_empty()
    }

    /// The bytes, put into a buffer. What else that holds is left open.
    pub fn read<'b>(&self, buffer: &'b mut [u8; MOST_SPELLED]) -> &'b [u8]
        ensures { result.now ≡ self.now }
    {
        read_bytes(self.digits, buffer).unwrap_or(&[])
    }

    /// The same digits once more: they stay in the text.
    pub fn copied(&self) -> Self
        ensures { result ≡ self.now }
    {
        Digits {
            digits: self.digits,
        }
    }

    /// The digits, two for each byte, as they stand in the text.
    pub fn as_digits(&self) -> &'a [u8]
        ensures bytes { decode_of result.now ≡ Ok self.now }
        ensures short { length result.now ≤ line_limit }
    {
        self.digits
    }
}
