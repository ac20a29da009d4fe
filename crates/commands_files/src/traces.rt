//! A script as the trace of a command: its messages are carried out, and those that weren't are counted.
use crate::files::{read_whole, report_unread};
use crate::fronted::{Fronted, Marked};
use crate::reports::without_memory;
use crate::several::line_front;
use crate::written::{line_of, script_of};
use command_words::{TraceWords, TracesWords};
use script_trace::{Applied, Faulty, Refused, ScriptFault, apply_script};
use std::alloc::{AllocError, Global};
use std::io::Write;
use std::rt::Files;
use text_encode::without_mark;
use text_messages::find_script_mistake;
use text_writing::{LookFault, Status, report_look};

/// How many lines are named at most.
const NAMED: usize = 10;

/// What says why a message wasn't carried out.
const WHY: &str = "; onuctl lint says why";

/// The lines of the messages that have a fault.
fn faulty_lines(alloc: Global, faulty: &[Faulty]) -> Result<Vec<u64>, AllocError> {
    let mut lines = Vec::new(alloc);
    for message in faulty {
        lines.push(message.line)?;
    }
    Ok(lines)
}

/// The lines of the requests that were refused.
fn refused_lines(alloc: Global, refused: &[Refused]) -> Result<Vec<u64>, AllocError> {
    let mut lines = Vec::new(alloc);
    for request in refused {
        lines.push(request.line)?;
    }
    Ok(lines)
}

/// Says how many messages weren't carried out, in which lines they stand, and what says why; nothing where each was.
fn report_lines<E: Write>(lines: &[u64], one: &str, many: &str, why: &str, err: &mut E) {
    if lines.is_empty() {
        return;
    }
    let _ = match lines.len() {
        1 => write!(err, "1 {one}: line"),
        count => write!(err, "{count} {many}: lines"),
    };
    for (place, line) in lines.iter().take(NAMED).enumerate() {
        let comma = if place == 0 { "" } else { "," };
        let _ = write!(err, "{comma} {line}");
    }
    let more = if lines.len() > NAMED { ", .." } else { "" };
    let _ = writeln!(err, "{more}{why}");
}

/// Says which messages have a fault and which were refused. It gives how many.
fn report_applied<E: Write>(
    alloc: Global,
    applied: &Applied,
    why: &str,
    err: &mut E,
) -> Result<usize, AllocError> {
    let faulty = faulty_lines(alloc, &applied.faulty)?;
    let refused = refused_lines(alloc, &applied.refused)?;
    report_lines(
        &faulty,
        "message has a fault",
        "messages have a fault",
        why,
        err,
    );
    report_lines(
        &refused,
        "message was refused",
        "messages were refused",
        why,
        err,
    );
    Ok(faulty.len().saturating_add(refused.len()))
}

/// How many lines a script has: a last one needs no line feed.
fn lines_in(script: &[u8]) -> usize {
    let ended = script.iter().filter(|byte| **byte == b'\n').count();
    match script.last() {
        None | Some(b'\n') => ended,
        Some(_) => ended.saturating_add(1),
    }
}

/// Says that a script ends before a line that an option asks for, if it does.
pub fn report_short<E: Write>(script: &[u8], file: &str, option: &str, line: u32, err: &mut E) {
    let lines = lines_in(script);
    if (lines as u64) < u64::from(line) {
        let _ = writeln!(
            err,
            "{file} has {lines} lines, and {option} asks for {line}"
        );
    }
}

/// Says that a trace ends before the last line that is asked for, if it does.
pub fn report_until<E: Write>(script: &[u8], words: &TraceWords<'_>, err: &mut E) {
    if let Some(until) = words.until {
        report_short(script, words.file, "--until", until, err);
    }
}

/// Which messages of one of several files are applied.
pub fn trace_of<'w>(words: &TracesWords<'_>, file: &'w str) -> TraceWords<'w> {
    TraceWords {
        file,
        until: words.until,
        strict: words.strict,
    }
}

/// A trace, and what its messages leave.
#[derive(Drop)]
pub struct Linted {
    pub script: Vec<u8>,
    pub applied: Applied,
}

/// The trace in a file: a script, or what words in it ask for; or the status where it can't be had. Why is written to `err`.
pub fn read_trace<R: Files + Alloc<A = Global>, E: Write>(
    rt: &R,
    name: &str,
    err: &mut E,
) -> Result<Vec<u8>, Status> {
    match read_whole(rt, name) {
        Ok(text) => script_of(rt.alloc(), text, err),
        Err(error) => Err(report_unread(&error, b"cannot read trace\n", name, err)),
    }
}

/// Says what is wrong in a line of a trace, by its number from 1.
pub fn report_bad_line<E: Write>(script: &[u8], number: u64, err: &mut E) {
    let mistake = find_script_mistake(line_of(script, number));
    let _ = writeln!(err, "{mistake}");
}

/// Carries out the messages of a script, and gives what they leave, or the status where a line is bad.
fn apply_read<E: Write>(
    alloc: Global,
    script: &[u8],
    words: &TraceWords<'_>,
    err: &mut E,
) -> Result<Applied, Status> {
    match apply_script(alloc, script, words.until.map(u64::from)) {
        Ok(applied) => Ok(applied),
        Err(ScriptFault::BadLine(line)) => {
            let status = report_look(&Err(LookFault::BadTrace(line)), err);
            report_bad_line(script, line, err);
            Err(status)
        }
        Err(ScriptFault::NoMemory) => Err(without_memory(err)),
    }
}

/// Carries out the messages of a trace, and says which weren't; or gives the status where a line is bad, or one wasn't carried out that
/// has to be. Why there is nothing is written to `err`.
pub fn apply_trace<R: Files + Alloc<A = Global>, E: Write>(
    rt: &R,
    words: &TraceWords<'_>,
    err: &mut E,
) -> Result<Applied, Status> {
    let script = read_trace(rt, words.file, err)?;
    report_until(&script, words, err);
    apply_saying(rt.alloc(), &script, words, WHY, err)
}

/// The same with the trace, for a command that looks at more than one of its moments.
pub fn apply_kept<R: Files + Alloc<A = Global>, E: Write>(
    rt: &R,
    words: &TraceWords<'_>,
    err: &mut E,
) -> Result<Linted, Status> {
    let script = read_trace(rt, words.file, err)?;
    report_until(&script, words, err);
    let applied = apply_saying(rt.alloc(), &script, words, WHY, err)?;
    Ok(Linted { script, applied })
}

/// The same of one of two traces: each line that is written to `err` names the file. The last line that is read is that of an option.
pub fn apply_named<R: Files + Alloc<A = Global>, E: Write>(
    rt: &R,
    words: &TraceWords<'_>,
    option: &str,
    err: &mut E,
) -> Result<Applied, Status> {
    let alloc = rt.alloc();
    let Ok(front) = line_front(alloc, words.file) else {
        return Err(without_memory(err));
    };
    let mut said = Fronted::new(err, &front, Marked::Lines);
    let script = read_trace(rt, words.file, &mut said)?;
    if let Some(line) = words.until {
        report_short(&script, words.file, option, line, &mut said);
    }
    apply_saying(alloc, &script, words, WHY, &mut said)
}

/// The same for a command that says itself why a message wasn't carried out, with the trace.
pub fn apply_linted<R: Files + Alloc<A = Global>, E: Write>(
    rt: &R,
    words: &TraceWords<'_>,
    err: &mut E,
) -> Result<Linted, Status> {
    let script = read_trace(rt, words.file, err)?;
    report_until(&script, words, err);
    let applied = apply_saying(rt.alloc(), &script, words, "", err)?;
    Ok(Linted { script, applied })
}

/// The same, with these words on what says why a message wasn't carried out.
fn apply_saying<E: Write>(
    alloc: Global,
    script: &[u8],
    words: &TraceWords<'_>,
    why: &str,
    err: &mut E,
) -> Result<Applied, Status> {
    let applied = apply_read(alloc, script, words, err)?;
    match report_applied(alloc, &applied, why, err) {
        Ok(0) => Ok(applied),
        Ok(_) if words.strict => Err(Status::Bad),
        Ok(_) => Ok(applied),
        Err(AllocError) => Err(without_memory(err)),
    }
}
