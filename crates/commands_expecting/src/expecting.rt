//! Whether frames end as is expected of them, written.
use crate::reading::expectations_of;
use command_words::ExpectWords;
use commands_files::{Linted, apply_kept, refuse_twice, report_short, report_text};
use script_trace::Applied;
use std::alloc::Global;
use std::io::{BufWriter, Read, Write};
use std::rt::Files;
use text_expectations::ExpectedLine;
use text_outcomes::{Asked, write_outcomes};
use text_writing::{Status, TextFault};

/// The name of standard input.
const STANDARD_INPUT: &str = "-";

/// What is checked: a trace, and what is expected of frames after it.
#[derive(Drop)]
struct Checked {
    applied: Applied,
    lines: Vec<ExpectedLine>,
}

/// What the words name, or the status where it can't be had; why is written to `err`.
fn checked_of<R: Files + Alloc<A = Global>, I: Read, E: Write>(
    rt: &R,
    words: &ExpectWords<'_>,
    input: &mut I,
    err: &mut E,
) -> Result<Checked, Status> {
    refuse_twice(
        &[words.trace.file, words.file.unwrap_or(STANDARD_INPUT)],
        err,
    )?;
    let Linted { script, applied } = apply_kept(rt, &words.trace, err)?;
    if let Some(from) = words.from {
        report_short(&script, words.trace.file, "--from", from, err);
    }
    let lines = expectations_of(rt, words.file, input, err)?;
    Ok(Checked { applied, lines })
}

/// Writes what is found of expectations, and gives whether each holds.
fn write_checked<W: Write>(
    alloc: Global,
    words: &ExpectWords<'_>,
    checked: &Checked,
    writer: &mut W,
) -> Result<bool, TextFault> {
    let asked = Asked {
        lines: &checked.lines,
        from: words.from.map(u64::from),
        least: words.least.unwrap_or(0),
        is_json: words.json,
    };
    let Ok(mut gathered) = BufWriter::new(alloc, writer) else {
        return Err(TextFault::NoMemory);
    };
    let hold = write_outcomes(alloc, &checked.applied, &asked, &mut gathered)?;
    gathered.flush().map_err(|_| TextFault::Write)?;
    Ok(hold)
}

/// Writes of each expectation whether it holds after a trace, and else a frame that fails it, to `out`; and why nothing, or not all, to `err`. It gives
/// the status: that something is found where one doesn't hold.
pub fn expect<R: Files + Alloc<A = Global>, I: Read, O: Write, E: Write>(
    rt: &R,
    words: &ExpectWords<'_>,
    input: &mut I,
    out: &mut O,
    err: &mut E,
) -> Status {
    let checked = match checked_of(rt, words, input, err) {
        Ok(checked) => checked,
        Err(status) => return status,
    };
    match write_checked(rt.alloc(), words, &checked, out) {
        Ok(true) => Status::Done,
        Ok(false) => Status::Found,
        Err(fault) => report_text(Err(fault), err),
    }
}
