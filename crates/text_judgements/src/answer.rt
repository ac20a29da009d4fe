//! What becomes of a frame, as a line of a replay or of a history has it.
use crate::digits::{DigitWords, first_bytes, last_bytes};
use bench_history::{Digits, Extent, SeenGem};
use bench_judge::{Answer, End, Leaving, Run};
use std::fmt;
use text_deviations::ADDRESSES;
use text_entities::HexWords;

/// The bytes of a frame as it leaves, as hexadecimal digits of lower case. Those of its addresses and of its rest are those of the
/// frame that was sent.
#[derive(Clone, Copy)]
pub(crate) struct LeavingDigits<'j> {
    pub(crate) leaving: &'j Leaving,
    /// The digits of the frame that was sent.
    pub(crate) sent: &'j [u8],
}

impl fmt::Display for LeavingDigits<'_> {
    fn fmt<W: fmt::Write>(&self, f: &mut fmt::Formatter<W>) -> fmt::Result {
        let addresses = first_bytes(self.sent, ADDRESSES);
        write!(f, "{addresses}")?;
        for tag in &self.leaving.tags {
            let bytes = tag.bytes();
            let digits = HexWords(&bytes);
            write!(f, "{digits}")?;
        }
        let rest = last_bytes(self.sent, self.leaving.rest);
        write!(f, "{rest}")
    }
}

/// What stands behind the digits of a frame: `..` where it had more bytes.
#[derive(Clone, Copy)]
pub(crate) struct MoreWords(pub(crate) Extent);

impl fmt::Display for MoreWords {
    fn fmt<W: fmt::Write>(&self, f: &mut fmt::Formatter<W>) -> fmt::Result {
        match self.0 {
            Extent::Whole => Ok(()),
            Extent::Front => f.write_str(".."),
        }
    }
}

/// A run of versions and what becomes of the frame by them: `version V` or `versions V to V`, and then what a replay answers,
/// `g GEM HEX` or `d N`. Behind HEX stands `..` where the frame that was sent had more bytes than are known.
#[derive(Clone, Copy)]
pub(crate) struct RunWords<'j> {
    pub(crate) run: &'j Run,
    /// The digits of the frame that was sent, and how much of it they are.
    pub(crate) sent: &'j [u8],
    pub(crate) extent: Extent,
}

impl fmt::Display for RunWords<'_> {
    fn fmt<W: fmt::Write>(&self, f: &mut fmt::Formatter<W>) -> fmt::Result {
        let (from, to) = (self.run.from, self.run.to);
        if from == to {
            write!(f, "version {from} ")?;
        } else {
            write!(f, "versions {from} to {to} ")?;
        }
        match &self.run.answer {
            Answer::Left(leaving) => {
                let gem = leaving.gem;
                let sent = self.sent;
                let digits = LeavingDigits { leaving, sent };
                let more = MoreWords(self.extent);
                write!(f, "g {gem} {digits}{more}")
            }
            Answer::Dropped(reason) => {
                let number = reason.code();
                write!(f, "d {number}")
            }
        }
    }
}

/// The GEM port by which a frame was seen to leave: its number, or `any`.
#[derive(Clone, Copy)]
struct GemWords(SeenGem);

impl fmt::Display for GemWords {
    fn fmt<W: fmt::Write>(&self, f: &mut fmt::Formatter<W>) -> fmt::Result {
        match self.0 {
            SeenGem::Port(gem) => write!(f, "{gem}"),
            SeenGem::Any => f.write_str("any"),
        }
    }
}

/// A frame that was seen to leave: `GEM HEX`, and `..` behind it where it had more bytes.
#[derive(Clone, Copy)]
pub(crate) struct SeenWords<'j, 'a> {
    pub(crate) gem: SeenGem,
    pub(crate) extent: Extent,
    pub(crate) frame: &'j Digits<'a>,
}

impl fmt::Display for SeenWords<'_, '_> {
    fn fmt<W: fmt::Write>(&self, f: &mut fmt::Formatter<W>) -> fmt::Result {
        let gem = GemWords(self.gem);
        let digits = DigitWords(self.frame.as_digits());
        let more = MoreWords(self.extent);
        write!(f, "{gem} {digits}{more}")
    }
}

/// How a frame was seen to end: `seen g GEM HEX`, `seen d` or `not seen to leave`.
#[derive(Clone, Copy)]
pub(crate) struct EndWords<'j, 'a>(pub(crate) &'j End<'a>);

impl fmt::Display for EndWords<'_, '_> {
    fn fmt<W: fmt::Write>(&self, f: &mut fmt::Formatter<W>) -> fmt::Result {
        match self.0 {
            End::Left { gem, extent, frame } => {
                let (gem, extent) = (*gem, *extent);
                let seen = SeenWords { gem, extent, frame };
                write!(f, "seen g {seen}")
            }
            End::Dropped => f.write_str("seen d"),
            End::Lost => f.write_str("not seen to leave"),
        }
    }
}
