//! Totals as text.
use bench_forward::{Dropped, Totals};
use frame_meaning::Reason;
use std::alloc::{AllocError, Global};
use std::io::Write;
use text_writing::{TextFault, write_whole};

/// Writes totals, a line each: `frames N` and `bytes N`, those of the frames that leave; for each reason for which frames are dropped
/// `drop R N`, the reason in words, and the numbers of the first ten frames, behind which `..` stands where there are more; and for
/// each GEM port by which frames leave `gem G N`.
///
/// A line is made in memory before it is written, and none is kept.
pub fn write_totals<W: Write>(
    alloc: Global,
    totals: &Totals,
    writer: &mut W,
) -> Result<(), TextFault> {
    let (frames, bytes) = (totals.frames(), totals.bytes());
    let front = format!(in alloc; "frames {frames}\nbytes {bytes}\n")?;
    write_whole(writer, front.as_bytes())?;
    write_drops(alloc, totals, writer)?;
    write_gems(alloc, totals, writer)
}

/// Writes the lines of the frames that are dropped.
fn write_drops<W: Write>(alloc: Global, totals: &Totals, writer: &mut W) -> Result<(), TextFault> {
    for reason in &Reason::ALL {
        let dropped = totals.dropped(*reason);
        if dropped.frames() != 0 {
            let line = drop_line(alloc, *reason, dropped)?;
            write_whole(writer, line.as_bytes())?;
        }
    }
    Ok(())
}

/// The line of the frames that are dropped for a reason.
fn drop_line(alloc: Global, reason: Reason, dropped: &Dropped) -> Result<String, AllocError> {
    let (number, frames) = (reason.code(), dropped.frames());
    let first = dropped.first();
    let mut line = format!(in alloc; "drop {number} {frames} {reason}: ")?;
    for (place, frame) in first.iter().enumerate() {
        if place != 0 {
            line.push_str(", ")?;
        }
        write!(line, "{frame}")?;
    }
    if frames > first.len() as u64 {
        line.push_str(", ..")?;
    }
    line.push_str("\n")?;
    Ok(line)
}

/// Writes the lines of the frames that leave, by ascending GEM port.
fn write_gems<W: Write>(alloc: Global, totals: &Totals, writer: &mut W) -> Result<(), TextFault> {
    for gem in 0..=u16::MAX {
        let frames = totals.leaving_by(gem);
        if frames != 0 {
            let line = format!(in alloc; "gem {gem} {frames}\n")?;
            write_whole(writer, line.as_bytes())?;
        }
    }
    Ok(())
}
