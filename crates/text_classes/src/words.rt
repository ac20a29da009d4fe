//! A class in words.
use frame_classes::{Ending, FrameClass, Use};
use std::fmt;

/// What is used for a frame, in a word of JSON's; an entry's number stands apart.
pub(crate) fn use_word(used: Use) -> &'static str {
    match used {
        Use::Unread => "unread",
        Use::NoTable => "no-table",
        Use::Entry(_) => "entry",
        Use::NoEntry => "no-entry",
    }
}

/// What is used for a frame, in words: `unread`, `no-table`, `entry K` or `no-entry`.
#[derive(Clone, Copy)]
pub struct UseWords(pub Use);

impl fmt::Display for UseWords {
    fn fmt<W: fmt::Write>(&self, f: &mut fmt::Formatter<W>) -> fmt::Result {
        let word = use_word(self.0);
        f.write_str(word)?;
        match self.0 {
            Use::Entry(number) => write!(f, " {number}"),
            Use::Unread | Use::NoTable | Use::NoEntry => Ok(()),
        }
    }
}

/// A class in words, of which there are at most 17 bytes: what is used, and how frames end, `g GEM` or `d R`.
#[derive(Clone, Copy)]
pub struct ClassWords<'c>(pub &'c FrameClass);

impl fmt::Display for ClassWords<'_> {
    fn fmt<W: fmt::Write>(&self, f: &mut fmt::Formatter<W>) -> fmt::Result {
        let used = UseWords(self.0.used);
        match self.0.ending {
            Ending::Gem(gem) => write!(f, "{used} g {gem}"),
            Ending::Dropped(reason) => {
                let number = reason.code();
                write!(f, "{used} d {number}")
            }
        }
    }
}
