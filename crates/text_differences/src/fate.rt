//! What becomes of a frame by one configuration.
use frame_classes::{FrameClass, Use};
use frame_meaning::{Verdict, plain_walk};
use json::Writer;
use mib_state::Mib;
use std::alloc::{AllocError, Global};
use std::fmt;
use text_classes::{UseWords, put_use};
use text_entities::{put_number, put_words};
use text_explanations::{FrameDigits, PortEntries, Traced, VerdictWords};

/// What becomes of a frame by one configuration: what is used for it, and the verdict.
#[derive(Drop)]
pub struct Fate<'f> {
    used: Use,
    /// The line of the trace that set the entry that is used, where it is shown.
    line: Option<u64>,
    verdict: Verdict<'f>,
}

/// The line of the trace that set the entry that is used, if one is.
fn line_of(traced: &Traced<'_>, port: u16, used: Use) -> Option<u64> {
    let Use::Entry(number) = used else {
        return None;
    };
    PortEntries::at(traced, port)?.numbered_line(usize::from(number))
}

impl<'f> Fate<'f> {
    /// That of a frame that comes in at a port, of the class that it has there.
    pub fn of(mib: &Mib, port: u16, class: &FrameClass, frame: &'f [u8]) -> Fate<'f> {
        Fate {
            used: class.used,
            line: None,
            verdict: plain_walk(mib, port, frame),
        }
    }

    /// The same, with the line of the trace that set its entry.
    pub(crate) fn traced(
        traced: &Traced<'_>,
        port: u16,
        class: &FrameClass,
        frame: &'f [u8],
    ) -> Fate<'f> {
        Fate {
            used: class.used,
            line: line_of(traced, port, class.used),
            verdict: plain_walk(traced.mib, port, frame),
        }
    }
}

impl fmt::Display for Fate<'_> {
    fn fmt<W: fmt::Write>(&self, f: &mut fmt::Formatter<W>) -> fmt::Result {
        let (used, verdict) = (UseWords(self.used), VerdictWords(&self.verdict));
        match self.line {
            Some(line) => write!(f, "{used} (line {line}) {verdict}"),
            None => write!(f, "{used} {verdict}"),
        }
    }
}

/// Puts what becomes of a frame under a key, as an object: `use`, with `entry` where it is one; and `gem`, with `frame`, the bytes that
/// leave; or `reason` and its `words`.
pub fn put_fate(
    alloc: Global,
    object: &mut Writer,
    key: &str,
    fate: &Fate<'_>,
) -> Result<(), AllocError> {
    object.key(key)?;
    object.begin_object()?;
    put_use(object, fate.used)?;
    match &fate.verdict {
        Verdict::Forward { gem, frame } => {
            put_number(object, "gem", u64::from(*gem))?;
            put_words(alloc, object, "frame", &FrameDigits(frame))?;
        }
        Verdict::Drop(reason) => {
            put_number(object, "reason", u64::from(reason.code()))?;
            put_words(alloc, object, "words", reason)?;
        }
    }
    object.end_object()
}
