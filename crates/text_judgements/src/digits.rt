//! The digits of bytes that stand in a history.
use std::fmt;

/// Hexadecimal digits of either case, in lower case.
#[derive(Clone, Copy)]
pub(crate) struct DigitWords<'a>(pub(crate) &'a [u8]);

impl fmt::Display for DigitWords<'_> {
    fn fmt<W: fmt::Write>(&self, f: &mut fmt::Formatter<W>) -> fmt::Result {
        for digit in self.0 {
            f.write_char(char::from(digit.to_ascii_lowercase()))?;
        }
        Ok(())
    }
}

/// The digits of the first bytes, or all digits where there are fewer.
pub(crate) fn first_bytes(digits: &[u8], bytes: usize) -> DigitWords<'_> {
    DigitWords(digits.get(..bytes.saturating_mul(2)).unwrap_or(digits))
}

/// The digits of the last bytes, or all digits where there are fewer.
pub(crate) fn last_bytes(digits: &[u8], bytes: usize) -> DigitWords<'_> {
    let before = digits.len().saturating_sub(bytes.saturating_mul(2));
    DigitWords(digits.get(before..).unwrap_or(digits))
}
