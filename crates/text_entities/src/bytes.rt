//! Bytes as hexadecimal digits.
use std::fmt;

/// Bytes as hexadecimal digits of lower case, two a byte.
#[derive(Clone, Copy)]
pub struct HexWords<'a>(pub &'a [u8]);

impl fmt::Display for HexWords<'_> {
    fn fmt<W: fmt::Write>(&self, f: &mut fmt::Formatter<W>) -> fmt::Result {
        for byte in self.0 {
            write!(f, "{byte:02x}")?;
        }
        Ok(())
    }
}
