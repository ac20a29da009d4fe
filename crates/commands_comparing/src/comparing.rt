//! Which frames two configurations treat differently, written.
use crate::sides::{BothSides, sides_of};
use command_words::DiffWords;
use commands_files::report_text;
use script_trace::Applied;
use std::alloc::Global;
use std::io::{BufWriter, Write};
use std::rt::Files;
use text_differences::Compared;
use text_every_frame::{Frames, write_differences};
use text_explanations::Traced;
use text_writing::{Status, TextFault};

/// What a trace left, as texts show it.
fn traced(applied: &Applied) -> Traced<'_> {
    Traced {
        mib: &applied.mib,
        accepted: &applied.accepted,
    }
}

/// Writes what two configurations treat differently, and gives whether that is nothing.
fn write_sides<W: Write>(
    alloc: Global,
    words: &DiffWords<'_>,
    sides: &BothSides,
    writer: &mut W,
) -> Result<bool, TextFault> {
    let frames = Frames {
        port: words.port,
        least: words.least.unwrap_or(0),
    };
    let compared = Compared {
        before: traced(&sides.before),
        after: traced(&sides.after),
    };
    let Ok(mut gathered) = BufWriter::new(alloc, writer) else {
        return Err(TextFault::NoMemory);
    };
    let is_same = write_differences(alloc, &compared, frames, words.json, &mut gathered)?;
    gathered.flush().map_err(|_| TextFault::Write)?;
    Ok(is_same)
}

/// Writes which frames two configurations treat differently, each with what becomes of it, to `out`, and why nothing, or not all, to `err`.
/// It gives the status: that something is found where they differ.
pub fn diff<R: Files + Alloc<A = Global>, O: Write, E: Write>(
    rt: &R,
    words: &DiffWords<'_>,
    out: &mut O,
    err: &mut E,
) -> Status {
    let sides = match sides_of(rt, words, err) {
        Ok(sides) => sides,
        Err(status) => return status,
    };
    match write_sides(rt.alloc(), words, &sides, out) {
        Ok(true) => Status::Done,
        Ok(false) => Status::Found,
        Err(fault) => report_text(Err(fault), err),
    }
}
