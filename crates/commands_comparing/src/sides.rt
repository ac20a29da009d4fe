//! The two configurations that words name.
use command_words::{DiffWords, TraceWords};
use commands_files::{Linted, apply_kept, apply_named, refuse_twice, report_short, without_memory};
use script_trace::{Applied, apply_script};
use std::alloc::Global;
use std::io::Write;
use std::rt::Files;
use text_writing::Status;

/// What two traces left, or one trace at two moments.
#[derive(Drop)]
pub struct BothSides {
    pub before: Applied,
    pub after: Applied,
}

/// What a trace left at two moments, or the status where it can't be had.
fn of_moments<R: Files + Alloc<A = Global>, E: Write>(
    rt: &R,
    words: &DiffWords<'_>,
    err: &mut E,
) -> Result<BothSides, Status> {
    let Linted { script, applied } = apply_kept(rt, &words.trace, err)?;
    if let Some(from) = words.from {
        report_short(&script, words.trace.file, "--from", from, err);
    }
    let line = words.from.or(words.trace.until).map(u64::from);
    match apply_script(rt.alloc(), &script, line) {
        Ok(before) => Ok(BothSides {
            before,
            after: applied,
        }),
        // None of these lines is bad: they were carried out for the other side too.
        Err(_) => Err(without_memory(err)),
    }
}

/// What two traces left, or the status where that can't be had.
fn of_traces<R: Files + Alloc<A = Global>, E: Write>(
    rt: &R,
    words: &DiffWords<'_>,
    to: &str,
    err: &mut E,
) -> Result<BothSides, Status> {
    refuse_twice(&[words.trace.file, to], err)?;
    let before = TraceWords {
        file: words.trace.file,
        until: words.from,
        strict: words.trace.strict,
    };
    let after = TraceWords {
        file: to,
        until: words.trace.until,
        strict: words.trace.strict,
    };
    Ok(BothSides {
        before: apply_named(rt, &before, "--from", err)?,
        after: apply_named(rt, &after, "--until", err)?,
    })
}

/// The two configurations that the words of `diff` name, or the status where one can't be had; why is written to `err`.
pub fn sides_of<R: Files + Alloc<A = Global>, E: Write>(
    rt: &R,
    words: &DiffWords<'_>,
    err: &mut E,
) -> Result<BothSides, Status> {
    match words.to {
        Some(to) => of_traces(rt, words, to, err),
        None => of_moments(rt, words, err),
    }
}
