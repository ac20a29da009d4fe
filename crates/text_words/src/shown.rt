//! Bytes of a text as they are shown again.
use std::fmt;

/// Bytes that were found, between backquotes: printable ASCII as it is, every other byte as `\xHH`, and of more than 40 bytes the
/// first 40 and three dots.
#[derive(Clone, Copy)]
pub struct Shown<'a>(pub &'a [u8]);

/// The most bytes that are shown.
const MOST: usize = 40;

impl fmt::Display for Shown<'_> {
    fn fmt<W: fmt::Write>(&self, f: &mut fmt::Formatter<W>) -> fmt::Result {
        f.write_str("`")?;
        for byte in self.0.iter().take(MOST) {
            if byte.is_ascii_graphic() || *byte == b' ' {
                let character = char::from(*byte);
                write!(f, "{character}")?;
            } else {
                write!(f, "\\x{byte:02x}")?;
            }
        }
        f.write_str(if self.0.len() > MOST { "...`" } else { "`" })
    }
}
