//! What becomes of a frame, and what is seen of it, as JSON.
use crate::answer::LeavingDigits;
use crate::digits::DigitWords;
use crate::judgement_json::Around;
use bench_history::{Digits, Extent, SeenGem};
use bench_judge::{Answer, Candidate, End, Run, WrongFrame, WrongOneOf};
use json::Writer;
use std::alloc::{AllocError, Global};
use std::fmt;
use std::io::Write;
use text_entities::{JsonText, put_number, put_words};
use text_writing::TextFault;

/// The object of a frame that no open frame can be, by its line.
pub(crate) fn stray_object(
    alloc: Global,
    line: usize,
    seen: LeftValue<'_, '_>,
    around: Around<'_>,
) -> Result<String, AllocError> {
    let (front, behind) = (around.front, around.behind);
    format!(in alloc; "{front}\"line\":{line},\"stray\":{seen}{behind}\n")
}

/// Writes a frame that ended as by none of the versions that are left to it.
pub(crate) fn write_frame<W: Write>(
    alloc: Global,
    line: usize,
    wrong: &WrongFrame<'_>,
    around: Around<'_>,
    writer: &mut W,
) -> Result<(), TextFault> {
    let mut text = JsonText::new(alloc);
    let frame = FrameMembers(wrong);
    let (front, behind) = (around.front, around.behind);
    let front = format!(in alloc; "{front}\"line\":{line},\"frame\":{{{frame},\"versions\":")?;
    text.begin(writer, &front)?;
    for run in &wrong.runs {
        let mut object = text.object()?;
        put_run(alloc, &mut object, run, &wrong.sent, wrong.extent)?;
        text.write(writer, object)?;
    }
    let behind = format!(in alloc; "}}{behind}")?;
    text.end(writer, &behind)
}

/// Writes a frame that left as none of those that it may be does, and each of these.
pub(crate) fn write_one_of<W: Write>(
    alloc: Global,
    line: usize,
    wrong: &WrongOneOf<'_>,
    around: Around<'_>,
    writer: &mut W,
) -> Result<(), TextFault> {
    let mut text = JsonText::new(alloc);
    let (gem, extent, frame) = (wrong.gem, wrong.extent, &wrong.frame);
    let seen = LeftValue { gem, extent, frame };
    let (front, behind) = (around.front, around.behind);
    let front = format!(in alloc;
        "{front}\"line\":{line},\"one_of\":{{\"seen\":{seen},\"frames\":"
    )?;
    text.begin(writer, &front)?;
    for candidate in &wrong.candidates {
        let mut object = text.object()?;
        put_candidate(alloc, &mut object, candidate)?;
        text.write(writer, object)?;
    }
    let behind = format!(in alloc; "}}{behind}")?;
    text.end(writer, &behind)
}

/// Puts the members of a frame that one that left may be.
fn put_candidate(
    alloc: Global,
    object: &mut Writer,
    candidate: &Candidate<'_>,
) -> Result<(), AllocError> {
    put_number(object, "number", candidate.number as u64)?;
    put_number(object, "port", u64::from(candidate.port))?;
    put_number(object, "sent_line", candidate.sent_line as u64)?;
    put_number(object, "at_least", candidate.at_least as u64)?;
    put_number(object, "at_most", candidate.at_most as u64)?;
    object.key("versions")?;
    object.begin_array()?;
    for run in &candidate.runs {
        object.begin_object()?;
        put_run(alloc, object, run, &candidate.sent, candidate.extent)?;
        object.end_object()?;
    }
    object.end_array()
}

/// The members of a frame up to its versions.
#[derive(Clone, Copy)]
struct FrameMembers<'j, 'a>(&'j WrongFrame<'a>);

impl fmt::Display for FrameMembers<'_, '_> {
    fn fmt<W: fmt::Write>(&self, f: &mut fmt::Formatter<W>) -> fmt::Result {
        let (number, port, line) = (self.0.number, self.0.port, self.0.sent_line);
        let seen = SeenValue(&self.0.seen);
        let (least, most) = (self.0.at_least, self.0.at_most);
        write!(
            f,
            "\"number\":{number},\"port\":{port},\"sent_line\":{line},\"seen\":{seen},"
        )?;
        write!(f, "\"at_least\":{least},\"at_most\":{most}")
    }
}

/// The key of the digits of a frame, or of its front.
fn digits_key(extent: Extent) -> &'static str {
    match extent {
        Extent::Whole => "frame",
        Extent::Front => "front",
    }
}

/// The GEM port by which a frame was seen to leave: its number, or the text `any`.
#[derive(Clone, Copy)]
struct GemValue(SeenGem);

impl fmt::Display for GemValue {
    fn fmt<W: fmt::Write>(&self, f: &mut fmt::Formatter<W>) -> fmt::Result {
        match self.0 {
            SeenGem::Port(gem) => write!(f, "{gem}"),
            SeenGem::Any => f.write_str("\"any\""),
        }
    }
}

/// The object of a frame that was seen to leave.
#[derive(Clone, Copy)]
pub(crate) struct LeftValue<'j, 'a> {
    pub(crate) gem: SeenGem,
    pub(crate) extent: Extent,
    pub(crate) frame: &'j Digits<'a>,
}

impl fmt::Display for LeftValue<'_, '_> {
    fn fmt<W: fmt::Write>(&self, f: &mut fmt::Formatter<W>) -> fmt::Result {
        let gem = GemValue(self.gem);
        let key = digits_key(self.extent);
        let digits = DigitWords(self.frame.as_digits());
        write!(f, "{{\"gem\":{gem},\"{key}\":\"{digits}\"}}")
    }
}

/// How a frame was seen to end.
#[derive(Clone, Copy)]
struct SeenValue<'j, 'a>(&'j End<'a>);

impl fmt::Display for SeenValue<'_, '_> {
    fn fmt<W: fmt::Write>(&self, f: &mut fmt::Formatter<W>) -> fmt::Result {
        match self.0 {
            End::Left { gem, extent, frame } => {
                let (gem, extent) = (*gem, *extent);
                let seen = LeftValue { gem, extent, frame };
                write!(f, "{seen}")
            }
            End::Dropped => f.write_str("\"dropped\""),
            End::Lost => f.write_str("\"lost\""),
        }
    }
}

/// Puts the members of a run of versions of a frame, as it was sent.
fn put_run(
    alloc: Global,
    object: &mut Writer,
    run: &Run,
    sent: &Digits<'_>,
    extent: Extent,
) -> Result<(), AllocError> {
    put_number(object, "from", run.from as u64)?;
    put_number(object, "to", run.to as u64)?;
    match &run.answer {
        Answer::Left(leaving) => {
            put_number(object, "gem", u64::from(leaving.gem))?;
            let sent = sent.as_digits();
            let digits = LeavingDigits { leaving, sent };
            put_words(alloc, object, digits_key(extent), &digits)
        }
        Answer::Dropped(reason) => put_number(object, "reason", u64::from(reason.code())),
    }
}
