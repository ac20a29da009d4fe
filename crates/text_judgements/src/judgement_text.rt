//! What a history shows, as text.
use crate::answer::{EndWords, RunWords, SeenWords};
use crate::counts::{CountWords, frames_of};
use crate::digits::DigitWords;
use crate::told::Told;
use bench_history::{Digits, Extent};
use bench_judge::{
    Candidate, Deviation, Deviations, Evidence, Explanation, Judgement, Run, Step, Wrong,
    WrongFrame, WrongOneOf, WrongReply,
};
use std::alloc::{AllocError, Global};
use std::io::Write;
use text_deviations::{Lines, Observed, write_beside};
use text_entities::HexWords;
use text_writing::{TextFault, write_whole};

/// Writes what a history shows.
///
/// The first line is `start N` where a script was carried out first. Of a history that a right unit explains: how many messages, replies and
/// frames it has, a line for each frame whose least version is greater than that of all ended frames before it at its port, and `explained`.
/// In place of `explained` stands why it isn't a pass: it has no end line, unless that is allowed, or nothing of it was judged. Of another:
/// the first line that no right unit explains, what was seen by it, and what the model replies, or what becomes of the frame by each version
/// that is left to it; and last what differs, what decided it, and where the event was seen.
///
/// A line is made in memory before it is written, and none is kept.
pub fn write_judgement<W: Write>(
    alloc: Global,
    judgement: &Judgement<'_>,
    told: &Told,
    observed: &Observed<'_>,
    writer: &mut W,
) -> Result<(), TextFault> {
    write_start(alloc, told, writer)?;
    match judgement {
        Judgement::Explained(explanation) => {
            write_explanation(alloc, explanation, told.allow_unfinished, writer)
        }
        Judgement::Deviates(deviation) => {
            let history = Lines::of(alloc, observed)?;
            write_deviation(alloc, deviation, &history, writer)
        }
    }
}

/// Writes every line that no right unit explains, each as [`write_judgement`] writes the first, and behind them how many there are, and
/// `and more` where more lines follow that aren't explained.
pub fn write_deviations<W: Write>(
    alloc: Global,
    deviations: &Deviations<'_>,
    told: &Told,
    observed: &Observed<'_>,
    writer: &mut W,
) -> Result<(), TextFault> {
    write_start(alloc, told, writer)?;
    let history = Lines::of(alloc, observed)?;
    for deviation in &deviations.list {
        write_deviation(alloc, deviation, &history, writer)?;
    }
    let count = deviations.list.len();
    let more = if deviations.more { " and more" } else { "" };
    let text = format!(in alloc; "deviations {count}{more}\n")?;
    write_whole(writer, text.as_bytes())?;
    Ok(())
}

/// Writes how many requests were accepted before the history.
fn write_start<W: Write>(alloc: Global, told: &Told, writer: &mut W) -> Result<(), TextFault> {
    if let Some(start) = told.start {
        let text = format!(in alloc; "start {start}\n")?;
        write_whole(writer, text.as_bytes())?;
    }
    Ok(())
}

/// Writes what a history shows that a right unit explains.
fn write_explanation<W: Write>(
    alloc: Global,
    explanation: &Explanation,
    allow_unfinished: bool,
    writer: &mut W,
) -> Result<(), TextFault> {
    let counts = CountWords(&explanation.counts);
    let front = format!(in alloc; "{counts}\n")?;
    write_whole(writer, front.as_bytes())?;
    for step in &explanation.steps {
        write_step(alloc, step, writer)?;
    }
    let end = end_of(alloc, explanation, allow_unfinished)?;
    write_whole(writer, end.as_bytes())?;
    Ok(())
}

/// The last lines: that the history is explained, or each reason why that isn't said.
fn end_of(
    alloc: Global,
    explanation: &Explanation,
    allow_unfinished: bool,
) -> Result<String, AllocError> {
    let mut text = String::new(alloc);
    if explanation.passes(allow_unfinished) {
        text.push_str("explained\n")?;
        return Ok(text);
    }
    if !explanation.finished && !allow_unfinished {
        text.push_str("unfinished: the history has no end line; it may be cut\n")?;
    }
    match explanation.evidence {
        Evidence::Judged => {}
        Evidence::NoFrame => {
            let frames = frames_of(&explanation.counts);
            writeln!(text, "no frame was judged: {frames} were sent")?;
        }
        Evidence::Nothing => text.push_str("nothing was judged: no reply, no frame that ended\n")?,
    }
    Ok(text)
}

/// Writes the line of a frame whose least version is greater than those before it.
fn write_step<W: Write>(alloc: Global, step: &Step, writer: &mut W) -> Result<(), TextFault> {
    let Step {
        port,
        version,
        frame,
        line,
    } = *step;
    let text = format!(in alloc; "port {port} version {version} from frame {frame} line {line}\n")?;
    write_whole(writer, text.as_bytes())?;
    Ok(())
}

/// Writes a line that no right unit explains.
fn write_deviation<W: Write>(
    alloc: Global,
    deviation: &Deviation<'_>,
    history: &Lines<'_>,
    writer: &mut W,
) -> Result<(), TextFault> {
    let line = deviation.line;
    let front = format!(in alloc; "deviation at line {line}\n")?;
    write_whole(writer, front.as_bytes())?;
    match &deviation.wrong {
        Wrong::Frame(wrong) => write_frame(alloc, wrong, writer)?,
        Wrong::OneOf(wrong) => write_one_of(alloc, wrong, writer)?,
        wrong => {
            let text = lines_of(alloc, wrong)?;
            write_whole(writer, text.as_bytes())?;
        }
    }
    write_beside(alloc, deviation, history, writer)
}

/// The lines of what is wrong where it has no versions.
fn lines_of(alloc: Global, wrong: &Wrong<'_>) -> Result<String, AllocError> {
    match wrong {
        Wrong::Unasked { reply } => unasked(alloc, reply),
        Wrong::Reply(wrong) => wrong_reply(alloc, wrong),
        Wrong::Stray { gem, extent, frame } => {
            let (gem, extent) = (*gem, *extent);
            stray(alloc, SeenWords { gem, extent, frame })
        }
        Wrong::Frame(_) | Wrong::OneOf(_) => Ok(String::new(alloc)),
    }
}

/// The lines of a reply that no request waits for.
fn unasked(alloc: Global, reply: &Digits<'_>) -> Result<String, AllocError> {
    let mut text = String::new(alloc);
    text.push_str("a reply, and no request waits for one\n")?;
    put_seen_reply(&mut text, reply)?;
    Ok(text)
}

/// The lines of a reply other than the model's.
fn wrong_reply(alloc: Global, wrong: &WrongReply<'_>) -> Result<String, AllocError> {
    let line = wrong.request_line;
    let mut text = String::new(alloc);
    writeln!(text, "reply to the request at line {line}")?;
    put_seen_reply(&mut text, &wrong.reply)?;
    let bytes = omci_msg::write(&wrong.model);
    let model = HexWords(&bytes);
    writeln!(text, "model r {model}")?;
    Ok(text)
}

/// Puts the line of a reply that was seen.
fn put_seen_reply(text: &mut String, reply: &Digits<'_>) -> Result<(), AllocError> {
    let digits = DigitWords(reply.as_digits());
    writeln!(text, "seen r {digits}")
}

/// The lines of a frame that no open frame can be.
fn stray(alloc: Global, seen: SeenWords<'_, '_>) -> Result<String, AllocError> {
    format!(in alloc; "a frame left that no open frame can be\nseen s {seen}\n")
}

/// Writes the lines of a frame that ended as by none of the versions that are left to it.
fn write_frame<W: Write>(
    alloc: Global,
    wrong: &WrongFrame<'_>,
    writer: &mut W,
) -> Result<(), TextFault> {
    let front = frame_front(alloc, wrong)?;
    write_whole(writer, front.as_bytes())?;
    if wrong.at_least > wrong.at_most {
        let text = no_version(alloc, wrong)?;
        write_whole(writer, text.as_bytes())?;
        return Ok(());
    }
    write_runs(alloc, &wrong.runs, &wrong.sent, wrong.extent, writer)
}

/// The lines of which frame it is, and of how it was seen to end.
fn frame_front(alloc: Global, wrong: &WrongFrame<'_>) -> Result<String, AllocError> {
    let (number, port, line) = (wrong.number, wrong.port, wrong.sent_line);
    let seen = EndWords(&wrong.seen);
    format!(in alloc; "frame {number}, sent into port {port} at line {line}\n{seen}\n")
}

/// The line that no version is left.
fn no_version(alloc: Global, wrong: &WrongFrame<'_>) -> Result<String, AllocError> {
    let (least, most) = (wrong.at_least, wrong.at_most);
    format!(in alloc;
        "no version is left: at least {least} by frames before it or by what was waited for, at most {most}\n"
    )
}

/// Writes a line for each run of versions of a frame, as it was sent.
fn write_runs<W: Write>(
    alloc: Global,
    runs: &[Run],
    sent: &Digits<'_>,
    extent: Extent,
    writer: &mut W,
) -> Result<(), TextFault> {
    let sent = sent.as_digits();
    for run in runs {
        let words = RunWords { run, sent, extent };
        let text = format!(in alloc; "{words}\n")?;
        write_whole(writer, text.as_bytes())?;
    }
    Ok(())
}

/// Writes the lines of a frame that left as none of those that it may be does.
fn write_one_of<W: Write>(
    alloc: Global,
    wrong: &WrongOneOf<'_>,
    writer: &mut W,
) -> Result<(), TextFault> {
    let front = one_of_front(alloc, wrong)?;
    write_whole(writer, front.as_bytes())?;
    for candidate in &wrong.candidates {
        write_candidate(alloc, candidate, writer)?;
    }
    Ok(())
}

/// The lines of which frames it may be, and of how it was seen to leave.
fn one_of_front(alloc: Global, wrong: &WrongOneOf<'_>) -> Result<String, AllocError> {
    let mut text = String::new(alloc);
    text.push_str("one of the frames")?;
    for candidate in &wrong.candidates {
        let number = candidate.number;
        write!(text, " {number}")?;
    }
    let (gem, extent, frame) = (wrong.gem, wrong.extent, &wrong.frame);
    let seen = SeenWords { gem, extent, frame };
    writeln!(text, "\nseen a {seen}")?;
    Ok(text)
}

/// Writes the lines of a frame that it may be: which one, and what its versions mean for it.
fn write_candidate<W: Write>(
    alloc: Global,
    candidate: &Candidate<'_>,
    writer: &mut W,
) -> Result<(), TextFault> {
    let (number, port, line) = (candidate.number, candidate.port, candidate.sent_line);
    let front = format!(in alloc; "frame {number}, sent into port {port} at line {line}\n")?;
    write_whole(writer, front.as_bytes())?;
    write_runs(
        alloc,
        &candidate.runs,
        &candidate.sent,
        candidate.extent,
        writer,
    )
}
