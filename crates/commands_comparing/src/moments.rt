//! Which frames a change treats on its way as neither its beginning nor its end does, written.
use command_words::HitlessWords;
use commands_files::{Linted, apply_kept, report_short, report_text};
use script_trace::Applied;
use std::alloc::Global;
use std::io::{BufWriter, Write};
use std::rt::Files;
use text_every_frame::{Frames, write_tears};
use text_writing::{Status, TextFault};

/// Finds and writes the torn moments of the change that the words name, and gives whether there are none.
fn write_torn<W: Write>(
    alloc: Global,
    words: &HitlessWords<'_>,
    applied: &Applied,
    writer: &mut W,
) -> Result<bool, TextFault> {
    let frames = Frames {
        port: words.port,
        least: words.least.unwrap_or(0),
    };
    let from = u64::from(words.from);
    let Ok(mut gathered) = BufWriter::new(alloc, writer) else {
        return Err(TextFault::NoMemory);
    };
    let is_hitless = write_tears(alloc, applied, from, frames, words.json, &mut gathered)?;
    gathered.flush().map_err(|_| TextFault::Write)?;
    Ok(is_hitless)
}

/// Writes for which frames moments of a change are torn, each with what becomes of it as the change begins, then, and as it ends, to `out`;
/// and why nothing, or not all, to `err`. It gives the status: that something is found where a moment is torn.
pub fn hitless<R: Files + Alloc<A = Global>, O: Write, E: Write>(
    rt: &R,
    words: &HitlessWords<'_>,
    out: &mut O,
    err: &mut E,
) -> Status {
    let Linted { script, applied } = match apply_kept(rt, &words.trace, err) {
        Ok(kept) => kept,
        Err(status) => return status,
    };
    report_short(&script, words.trace.file, "--from", words.from, err);
    match write_torn(rt.alloc(), words, &applied, out) {
        Ok(true) => Status::Done,
        Ok(false) => Status::Found,
        Err(fault) => report_text(Err(fault), err),
    }
}
