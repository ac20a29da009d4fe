//! A verdict as the line that a replay answers.
use frame_meaning::{OutFrame, Verdict};
use std::fmt;
use text_entities::HexWords;

/// A verdict as the line that a replay answers, without its line feed: `g GEM HEX`, or `d N`.
#[derive(Clone, Copy)]
pub struct VerdictWords<'v, 'a>(pub &'v Verdict<'a>);

impl fmt::Display for VerdictWords<'_, '_> {
    fn fmt<W: fmt::Write>(&self, f: &mut fmt::Formatter<W>) -> fmt::Result {
        match self.0 {
            Verdict::Forward { gem, frame } => {
                let digits = FrameDigits(frame);
                write!(f, "g {gem} {digits}")
            }
            Verdict::Drop(reason) => {
                let number = reason.code();
                write!(f, "d {number}")
            }
        }
    }
}

/// The bytes of a frame as it leaves, as hexadecimal digits.
#[derive(Clone, Copy)]
pub struct FrameDigits<'v, 'a>(pub &'v OutFrame<'a>);

impl fmt::Display for FrameDigits<'_, '_> {
    fn fmt<W: fmt::Write>(&self, f: &mut fmt::Formatter<W>) -> fmt::Result {
        let addresses = HexWords(self.0.addresses());
        write!(f, "{addresses}")?;
        for tag in self.0.tags() {
            let bytes = tag.bytes();
            let digits = HexWords(&bytes);
            write!(f, "{digits}")?;
        }
        let rest = HexWords(self.0.rest());
        write!(f, "{rest}")
    }
}
