//! What a history shows, as JSON.
use crate::counts::CountMembers;
use crate::digits::DigitWords;
use crate::frame_json::{LeftValue, stray_object, write_frame, write_one_of};
use crate::told::Told;
use bench_judge::{
    Deviation, Deviations, Evidence, Explanation, Judgement, Step, Wrong, WrongReply,
};
use json::Writer;
use std::alloc::{AllocError, Global};
use std::io::Write;
use text_entities::{HexWords, JsonText, put_number, put_words};
use text_writing::{TextFault, write_whole};

/// The number of the format of these objects. In the first `explained` was true of each history without a deviation, and `gem` a number.
const FORMAT: u64 = 2;

/// What stands before and behind the members of a deviation.
#[derive(Clone, Copy)]
pub(crate) struct Around<'f> {
    pub(crate) front: &'f str,
    pub(crate) behind: &'f str,
}

/// Writes what a history shows as one object of JSON (RFC 8259), whose member `explained` says whether it is a pass: a right unit may have
/// behaved so, the history has an end line, unless none is asked for, and something of it was judged. Where a script was carried out first,
/// `start` has the number of its accepted requests.
///
/// Of one that a right unit explains: `finished`, `evidence`, `messages`, `accepted`, `replies`, `frames` by their ends, and `versions`, an
/// object for each frame whose least version is greater than that of all ended frames before it at its port. Of another: `line`, the first
/// that no right unit explains, and `reply`, `frame`, `one_of` or `stray`, what was seen by it, what the model replies, and what becomes of
/// the frame by each version that is left to it. The objects of an array stand on lines of their own.
pub fn write_judgement_json<W: Write>(
    alloc: Global,
    judgement: &Judgement<'_>,
    told: &Told,
    writer: &mut W,
) -> Result<(), TextFault> {
    match judgement {
        Judgement::Explained(explanation) => {
            write_explanation_json(alloc, explanation, told, "}", writer)
        }
        Judgement::Deviates(deviation) => {
            let front = front_of(alloc, told)?;
            let front = format!(in alloc; "{front}\"explained\":false,")?;
            let around = Around {
                front: &front,
                behind: "}",
            };
            write_deviation(alloc, deviation, around, writer)
        }
    }
}

/// Writes every line that no right unit explains as one object of JSON: `deviations`, an object for each as [`write_judgement_json`] writes the
/// first, and `more`, whether more lines follow that aren't explained.
pub fn write_deviations_json<W: Write>(
    alloc: Global,
    deviations: &Deviations<'_>,
    told: &Told,
    writer: &mut W,
) -> Result<(), TextFault> {
    let front = front_of(alloc, told)?;
    let front = format!(in alloc; "{front}\"explained\":false,\"deviations\":[\n")?;
    write_whole(writer, front.as_bytes())?;
    let mut left = deviations.list.len();
    for deviation in &deviations.list {
        left = left.saturating_sub(1);
        let around = Around {
            front: "{",
            behind: if left > 0 { "}," } else { "}" },
        };
        write_deviation(alloc, deviation, around, writer)?;
    }
    let more = deviations.more;
    let behind = format!(in alloc; "],\"more\":{more}}}\n")?;
    write_whole(writer, behind.as_bytes())?;
    Ok(())
}

/// The first members of each object: the format, and how many requests were accepted before the history.
fn front_of(alloc: Global, told: &Told) -> Result<String, AllocError> {
    match told.start {
        Some(start) => format!(in alloc; "{{\"format\":{FORMAT},\"start\":{start},"),
        None => format!(in alloc; "{{\"format\":{FORMAT},"),
    }
}

/// Writes what a history shows that a right unit explains, as [`write_judgement_json`] does. Last stands `behind`: the object's end, or a
/// comma where members follow.
pub fn write_explanation_json<W: Write>(
    alloc: Global,
    explanation: &Explanation,
    told: &Told,
    behind: &str,
    writer: &mut W,
) -> Result<(), TextFault> {
    let mut text = JsonText::new(alloc);
    let front = front_of(alloc, told)?;
    let passes = explanation.passes(told.allow_unfinished);
    let finished = explanation.finished;
    let evidence = matches!(explanation.evidence, Evidence::Judged);
    let counts = CountMembers(&explanation.counts);
    let front = format!(in alloc;
        "{front}\"explained\":{passes},\"finished\":{finished},\"evidence\":{evidence},{counts},\"versions\":"
    )?;
    text.begin(writer, &front)?;
    for step in &explanation.steps {
        write_step(&mut text, step, writer)?;
    }
    text.end(writer, behind)
}

/// Writes the object of a frame whose least version is greater than those before it.
fn write_step<W: Write>(text: &mut JsonText, step: &Step, writer: &mut W) -> Result<(), TextFault> {
    let mut object = text.object()?;
    put_number(&mut object, "port", u64::from(step.port))?;
    put_number(&mut object, "version", step.version as u64)?;
    put_number(&mut object, "frame", step.frame as u64)?;
    put_number(&mut object, "line", step.line as u64)?;
    text.write(writer, object)
}

/// Writes a line that no right unit explains.
fn write_deviation<W: Write>(
    alloc: Global,
    deviation: &Deviation<'_>,
    around: Around<'_>,
    writer: &mut W,
) -> Result<(), TextFault> {
    let line = deviation.line;
    match &deviation.wrong {
        Wrong::Unasked { reply } => {
            write_reply(alloc, line, None, reply.as_digits(), around, writer)
        }
        Wrong::Reply(wrong) => {
            let seen = wrong.reply.as_digits();
            write_reply(alloc, line, Some(wrong), seen, around, writer)
        }
        Wrong::Frame(wrong) => write_frame(alloc, line, wrong, around, writer),
        Wrong::OneOf(wrong) => write_one_of(alloc, line, wrong, around, writer),
        Wrong::Stray { gem, extent, frame } => {
            let (gem, extent) = (*gem, *extent);
            let text = stray_object(alloc, line, LeftValue { gem, extent, frame }, around)?;
            write_whole(writer, text.as_bytes())?;
            Ok(())
        }
    }
}

/// Writes the object of a reply by its line and its digits, which is other than the model's or, without one, which no request waits for.
fn write_reply<W: Write>(
    alloc: Global,
    line: usize,
    wrong: Option<&WrongReply<'_>>,
    seen: &[u8],
    around: Around<'_>,
    writer: &mut W,
) -> Result<(), TextFault> {
    let mut object = Writer::new(Vec::new(alloc));
    object.begin_object()?;
    put_reply(alloc, &mut object, wrong, seen)?;
    object.end_object()?;
    let (front, behind) = (around.front, around.behind);
    let front = format!(in alloc; "{front}\"line\":{line},\"reply\":")?;
    write_whole(writer, front.as_bytes())?;
    write_whole(writer, &object.into_inner())?;
    let behind = format!(in alloc; "{behind}\n")?;
    write_whole(writer, behind.as_bytes())?;
    Ok(())
}

/// Puts the members of a reply.
fn put_reply(
    alloc: Global,
    object: &mut Writer,
    wrong: Option<&WrongReply<'_>>,
    seen: &[u8],
) -> Result<(), AllocError> {
    let seen = DigitWords(seen);
    match wrong {
        Some(wrong) => {
            put_number(object, "request_line", wrong.request_line as u64)?;
            put_words(alloc, object, "seen", &seen)?;
            let bytes = omci_msg::write(&wrong.model);
            put_words(alloc, object, "model", &HexWords(&bytes))
        }
        None => {
            object.key("request_line")?;
            object.null()?;
            put_words(alloc, object, "seen", &seen)?;
            object.key("model")?;
            object.null()
        }
    }
}
