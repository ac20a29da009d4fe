//! A field of a tag in words.
use std::fmt::{self, Display};

/// A field of a tag in words: a number, or what stands for one.
#[derive(Clone, Copy)]
pub(crate) enum FieldWords {
    Number(u16),
    // A type of two bytes, as `0x8100`.
    Type(u16),
    Words(&'static str),
}

impl fmt::Display for FieldWords {
    fn fmt<W: fmt::Write>(&self, f: &mut fmt::Formatter<W>) -> fmt::Result {
        match self {
            FieldWords::Number(number) => number.fmt(f),
            FieldWords::Type(number) => write!(f, "0x{:04x}", *number),
            FieldWords::Words(words) => f.write_str(words),
        }
    }
}
