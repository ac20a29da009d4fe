//! What is wrong in a line of a script.
use std::fmt;

/// What stands at a column of a line.
#[derive(Clone, Copy, Debug, PartialEq, Eq)]
pub enum Found {
    /// This byte.
    Byte(u8),
    /// Nothing: the line ends before the column.
    End,
}

/// What may stand there.
#[derive(Clone, Copy, Debug, PartialEq, Eq)]
pub enum Expected {
    /// The letter or mark that a line begins with.
    Mark,
    /// A space.
    Space,
    /// A decimal digit.
    Digit,
    /// A hexadecimal digit, of either case.
    HexDigit,
    /// A number that a port may have, from here on.
    Port,
    /// Nothing more.
    End,
    /// Nothing more, since a line has at most so many bytes.
    Limit(usize),
}

/// The first place where a line isn't as it should be.
#[derive(Clone, Copy, Debug, PartialEq, Eq)]
pub struct Mistake {
    /// The column, in bytes, the first being 1.
    pub column: usize,
    pub found: Found,
    pub expected: Expected,
}

impl fmt::Display for Found {
    fn fmt<W: fmt::Write>(&self, f: &mut fmt::Formatter<W>) -> fmt::Result {
        match *self {
            Found::Byte(byte) if byte.is_ascii_graphic() => write!(f, "'{}'", char::from(byte)),
            Found::Byte(b' ') => f.write_str("a space"),
            Found::Byte(byte) => write!(f, "the byte 0x{byte:02x}"),
            Found::End => f.write_str("the line's end"),
        }
    }
}

impl fmt::Display for Expected {
    fn fmt<W: fmt::Write>(&self, f: &mut fmt::Formatter<W>) -> fmt::Result {
        let words = match self {
            Expected::Mark => "'o', 'f', 'r', 'g', 'd', 'm', '-' or '#'",
            Expected::Space => "a space",
            Expected::Digit => "a decimal digit",
            Expected::HexDigit => "a hexadecimal digit",
            Expected::Port => "a number of at most 65535",
            Expected::End => "the line's end",
            Expected::Limit(most) => {
                return write!(f, "the line's end, behind at most {most} bytes");
            }
        };
        f.write_str(words)
    }
}

impl fmt::Display for Mistake {
    fn fmt<W: fmt::Write>(&self, f: &mut fmt::Formatter<W>) -> fmt::Result {
        let column = self.column;
        let found = self.found;
        let expected = self.expected;
        write!(f, "column {column}: found {found}, expected {expected}")
    }
}
