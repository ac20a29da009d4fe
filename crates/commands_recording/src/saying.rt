//! What is said of a history that was made of captures, on standard error: a line for each capture of which there is something to say.
use crate::clocks::Ahead;
use crate::finding::Findings;
use bench_record::Source;
use command_words::RecordWords;
use commands_files::report_cut;
use std::fmt;
use std::io::Write;

/// How many records are named at most of frames that have a line in the history.
const NAMED: usize = 10;

/// What is asked where frames left unmatched as captures in front of the unit began.
const BEGUN_LATE: &[u8] =
    b"was the sender on before the captures of --into began? --late, with --lost\n";

/// What is asked where strays left behind the end of a capture in front of the unit.
const ENDED_EARLY: &[u8] =
    b"did the sender go on behind the ends of the captures of --into? --early\n";

/// Records that follow each other, from one to another.
#[derive(Clone, Copy)]
struct Run {
    from: usize,
    to: usize,
}

impl fmt::Display for Run {
    fn fmt<W: fmt::Write>(&self, f: &mut fmt::Formatter<W>) -> fmt::Result {
        match self.to.saturating_sub(self.from) {
            0 => write!(f, "{}", self.from),
            1 => write!(f, "{}, {}", self.from, self.to),
            _ => write!(f, "{}-{}", self.from, self.to),
        }
    }
}

/// A duration of so many nanoseconds in milliseconds: with one to three digits behind the point if that is all of it, else with six.
#[derive(Clone, Copy)]
struct Milliseconds(u64);

impl fmt::Display for Milliseconds {
    fn fmt<W: fmt::Write>(&self, f: &mut fmt::Formatter<W>) -> fmt::Result {
        let whole = self.0 / 1_000_000;
        let part = self.0 % 1_000_000;
        if part == 0 {
            return write!(f, "{whole}");
        }
        let (tenths, hundredths, thousandths) = (part / 100_000, part / 10_000, part / 1_000);
        if tenths * 100_000 == part {
            return write!(f, "{whole}.{tenths}");
        }
        if hundredths * 10_000 == part {
            return write!(f, "{whole}.{hundredths:02}");
        }
        if thousandths * 1_000 == part {
            return write!(f, "{whole}.{thousandths:03}");
        }
        write!(f, "{whole}.{part:06}")
    }
}

/// How many of some frames are in a capture.
fn count_in(number: usize, frames: &[Source]) -> usize {
    frames
        .iter()
        .filter(|source| source.capture == number)
        .count()
}

/// Says of a capture how many of some frames are in it.
fn report_count<E: Write>(name: &str, count: usize, words: &str, err: &mut E) {
    let noun = if count == 1 { "record" } else { "records" };
    let _ = write!(err, "{name}: {count} {words}: {noun}");
}

/// Says of a capture how many of some frames are in it, if any is, and which records they are.
fn report_all_in<E: Write>(number: usize, name: &str, frames: &[Source], words: &str, err: &mut E) {
    let count = count_in(number, frames);
    if count == 0 {
        return;
    }
    report_count(name, count, words, err);
    let mut run = Run { from: 0, to: 0 };
    let mut comma = "";
    for source in frames {
        if source.capture != number {
            continue;
        }
        if run.from > 0 && run.to.saturating_add(1) == source.place {
            run.to = source.place;
            continue;
        }
        if run.from > 0 {
            let _ = write!(err, "{comma} {run}");
            comma = ",";
        }
        run = Run {
            from: source.place,
            to: source.place,
        };
    }
    let _ = writeln!(err, "{comma} {run}");
}

/// Says of a capture how many of some frames are in it, if any is, and in which records the first ones are.
fn report_in<E: Write>(number: usize, name: &str, frames: &[Source], words: &str, err: &mut E) {
    let count = count_in(number, frames);
    if count == 0 {
        return;
    }
    report_count(name, count, words, err);
    let mut named = 0usize;
    for source in frames {
        if source.capture != number || named >= NAMED {
            continue;
        }
        let comma = if named == 0 { "" } else { "," };
        let _ = write!(err, "{comma} {}", source.place);
        named = named.saturating_add(1);
    }
    let more = if count > NAMED { ", .." } else { "" };
    let _ = writeln!(err, "{more}");
}

/// The same of each capture.
fn report_frames<E: Write>(names: &[&str], frames: &[Source], words: &str, err: &mut E) {
    if frames.is_empty() {
        return;
    }
    for (number, name) in names.iter().enumerate() {
        report_in(number, name, frames, words, err);
    }
}

/// Says of each capture which of its records some frames are that have no line.
fn report_unlisted<E: Write>(names: &[&str], frames: &[Source], words: &str, err: &mut E) {
    if frames.is_empty() {
        return;
    }
    for (number, name) in names.iter().enumerate() {
        report_all_in(number, name, frames, words, err);
    }
}

/// Says which captured frames have no line.
fn report_passed<E: Write>(names: &[&str], findings: &Findings, err: &mut E) {
    let other = "frames of the management channel hold no OMCI message";
    report_unlisted(names, &findings.other, other, err);
    let unread = "frames are unread, since too little of them was stored";
    report_unlisted(names, &findings.unread, unread, err);
    let early = "frames left that may have been sent unseen";
    report_unlisted(names, &findings.early, early, err);
    if findings.may_begin_late {
        let _ = err.write_all(BEGUN_LATE);
    }
    let unwritable = "frames are left out, since a history can't hold them";
    report_unlisted(names, &findings.unwritable, unwritable, err);
}

/// Says of a capture how many of its frames left before they were sent, if some did, and up to how long.
fn report_ahead<E: Write>(number: usize, name: &str, frames: &[Ahead], err: &mut E) {
    let mut count = 0u64;
    let mut most = 0u64;
    for frame in frames {
        if frame.source.capture == number {
            count = count.saturating_add(1);
            most = most.max(frame.by);
        }
    }
    if count == 0 {
        return;
    }
    let most = Milliseconds(most);
    let _ = writeln!(
        err,
        "{name}: {count} frames left up to {most} ms before they were sent: are the clocks one? --skew"
    );
}

/// Says of captures in which no frame has a tag that a network card may have taken them off.
fn report_untagged<E: Write>(names: &[&str], captures: &[usize], err: &mut E) {
    for number in captures {
        if let Some(name) = names.get(*number) {
            let _ = writeln!(
                err,
                "{name}: no frame has a tag, though frames were sent with one: does its card take tags off (VLAN offload)?"
            );
        }
    }
}

/// Says what is in doubt, and what is open.
fn report_doubts<E: Write>(names: &[&str], findings: &Findings, err: &mut E) {
    let doubtful = "frames are matched in doubt";
    report_frames(names, &findings.doubtful, doubtful, err);
    let strays = "frames are strays, which no open frame can be";
    report_frames(names, &findings.strays, strays, err);
    if findings.may_end_early {
        let _ = err.write_all(ENDED_EARLY);
    }
    for (number, name) in names.iter().enumerate() {
        report_ahead(number, name, &findings.ahead, err);
    }
    report_untagged(names, &findings.untagged, err);
    report_frames(names, &findings.open, "frames are still open", err);
}

/// Says what isn't judged for want of options.
pub(crate) fn report_unjudged<E: Write>(words: &RecordWords<'_>, err: &mut E) {
    if words.wait.is_none() {
        let _ = writeln!(
            err,
            "without --wait it isn't judged whether what was set by a reply is in force for the frames behind it"
        );
    }
    if words.lost.is_none() {
        let _ = writeln!(
            err,
            "without --lost it isn't judged whether a frame left that wasn't seen to leave"
        );
    }
}

/// Says what is to be said of a history, but for what isn't judged.
pub(crate) fn report_findings<E: Write>(
    names: &[&str],
    findings: &Findings,
    cut: u64,
    err: &mut E,
) {
    report_passed(names, findings, err);
    report_cut(cut, err);
    report_doubts(names, findings, err);
}
