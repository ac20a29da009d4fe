//! The lines below a deviation.
use crate::carried::{carried_out, request_of};
use crate::compared_part::compared_part;
use crate::deciding::decided_in;
use crate::frame_difference::{JudgedFrame, Telling, frame_difference};
use crate::lines::HistoryLines;
use crate::observed::Lines;
use crate::reply_comparison::reply_difference;
use crate::seen_elsewhere::seen_elsewhere;
use crate::source::source_of;
use crate::unanswered::find_unanswered;
use bench_judge::{Deviation, End, Wrong, WrongFrame, WrongOneOf, WrongReply};
use bench_reply::{Compared, Expected};
use omci_msg::read_reply;
use script_lines::MOST_SPELLED;
use std::alloc::{AllocError, Global};
use std::io::Write;
use text_writing::{TextFault, write_whole};

/// Writes what stands below a deviation: the least that tells what was seen from the model's, with the entry of a table that decided it and
/// the line that set that, or which requests get no reply; where a lost frame may have been seen; and which records of captures showed it,
/// where remarks of the history say so.
pub fn write_beside<W: Write>(
    alloc: Global,
    deviation: &Deviation<'_>,
    history: &Lines<'_>,
    writer: &mut W,
) -> Result<(), TextFault> {
    let lines = &history.lines;
    let mut text = String::new(alloc);
    let line = deviation.line;
    match &deviation.wrong {
        Wrong::Unasked { .. } | Wrong::Stray { .. } => put_sources(&mut text, lines, line, None)?,
        Wrong::Reply(wrong) => {
            put_reply(&mut text, history, line, wrong)?;
            put_sources(&mut text, lines, line, Some(wrong.request_line))?;
        }
        Wrong::Frame(wrong) => {
            put_frame(alloc, &mut text, history, line, wrong)?;
            put_sources(&mut text, lines, line, Some(wrong.sent_line))?;
        }
        Wrong::OneOf(wrong) => {
            put_one_of(alloc, &mut text, history, line, wrong)?;
            put_sources(&mut text, lines, line, None)?;
        }
    }
    write_whole(writer, text.as_bytes())?;
    Ok(())
}

/// Puts the records that showed an event, and what was sent for it, where remarks say so.
fn put_sources(
    text: &mut String,
    lines: &HistoryLines<'_>,
    line: usize,
    sent: Option<usize>,
) -> Result<(), AllocError> {
    let Some(source) = source_of(lines, line) else {
        return Ok(());
    };
    write!(text, "from {source}")?;
    if let Some(sent) = sent
        && let Some(source) = source_of(lines, sent)
    {
        write!(text, "; sent {source}")?;
    }
    text.push_str("\n")
}

/// Puts what tells a reply from the model's, or why it is none, or which requests get no reply.
fn put_reply(
    text: &mut String,
    history: &Lines<'_>,
    line: usize,
    wrong: &WrongReply<'_>,
) -> Result<(), AllocError> {
    let mut buffer = [0; MOST_SPELLED];
    let seen = match read_reply(wrong.reply.read(&mut buffer)) {
        Ok(seen) => seen,
        Err(fault) => return writeln!(text, "differs: {fault}"),
    };
    if let Some(unanswered) = find_unanswered(history, &seen, wrong.request_line, line) {
        return writeln!(text, "{unanswered}");
    }
    let seen = compared_part(&seen, &wrong.model, compared_of(history, wrong));
    match reply_difference(&seen, &wrong.model) {
        Some(difference) => writeln!(text, "differs: {difference}"),
        None => Ok(()),
    }
}

/// What is compared of a reply with the model's to its request.
fn compared_of(history: &Lines<'_>, wrong: &WrongReply<'_>) -> Compared {
    match request_of(&history.lines, wrong.request_line) {
        Some(request) => Expected::of(history.modelled, &request, wrong.model).compared,
        None => Compared::Everything,
    }
}

/// Puts what tells a frame from the model's, and what decided that.
fn put_difference(
    alloc: Global,
    text: &mut String,
    history: &Lines<'_>,
    line: usize,
    judged: &JudgedFrame<'_, '_>,
    telling: &Telling,
) -> Result<(), AllocError> {
    let carried = carried_out(alloc, history, line, telling.version)?;
    let mut buffer = [0; MOST_SPELLED];
    let bytes = judged.sent.read(&mut buffer);
    let difference = &telling.difference;
    let decided = decided_in(alloc, &carried, judged.port, bytes, difference)?;
    write!(text, "differs: {difference}")?;
    if let Some(decided) = decided {
        write!(text, "{decided}")?;
    }
    text.push_str("\n")
}

/// Puts what tells a frame that ended from the model's, and where one that is lost may have been seen.
fn put_frame(
    alloc: Global,
    text: &mut String,
    history: &Lines<'_>,
    line: usize,
    wrong: &WrongFrame<'_>,
) -> Result<(), AllocError> {
    let judged = JudgedFrame {
        port: wrong.port,
        sent: &wrong.sent,
        extent: wrong.extent,
        runs: &wrong.runs,
    };
    if let Some(telling) = frame_difference(&judged, &wrong.seen) {
        put_difference(alloc, text, history, line, &judged, &telling)?;
    }
    if let End::Lost = wrong.seen
        && let Some(other) = seen_elsewhere(&history.lines, wrong.sent_line, &wrong.sent)
    {
        writeln!(text, "line {other} has its addresses")?;
    }
    Ok(())
}

/// Puts what tells a frame that left from the first of those that it may be.
fn put_one_of(
    alloc: Global,
    text: &mut String,
    history: &Lines<'_>,
    line: usize,
    wrong: &WrongOneOf<'_>,
) -> Result<(), AllocError> {
    let Some(candidate) = wrong.candidates.first() else {
        return Ok(());
    };
    let judged = JudgedFrame {
        port: candidate.port,
        sent: &candidate.sent,
        extent: candidate.extent,
        runs: &candidate.runs,
    };
    let seen = End::Left {
        gem: wrong.gem,
        extent: wrong.extent,
        frame: wrong.frame.copied(),
    };
    match frame_difference(&judged, &seen) {
        Some(telling) => put_difference(alloc, text, history, line, &judged, &telling),
        None => Ok(()),
    }
}
