//! What becomes of expectations after a trace.
ghost use Rattle.std.specs.Prelude.{◌≡◌, Some};
ghost use Rattle.script_trace.specs.Script.{first_bad};
ghost use Rattle.text_outcomes.specs.Said.{IsSaidOfLast};
ghost use Rattle.onu_scripts.specs.Comparing.{FindsInto};
ghost use Rattle.onu_scripts.specs.Expecting.{ChecksInto, ExpectsInto, TellsInto, line_in};

use crate::comparing::refuse;
use crate::making::put_made;
use onu_cell::{BACKWARD, BAD_LINE, NO_MEMORY, SMALL};
use onu_texts::put;
use script_trace::{Applied, apply_script};
use std::alloc::Global;
use text_expectations::{ExpectationsFault, read_expectations};
use text_outcomes::{Asked, write_outcomes};

/// The line of C at which a trace is at its end, however long it is.
const AT_END: u64 = u64::MAX;

/// Expectations, and the trace after which they have to hold.
#[derive(Clone, Copy)]
pub struct Expectations<'a> {
    pub trace: &'a [u8],
    /// The expectations, in words.
    pub words: &'a [u8],
    /// The line of the trace behind which they have to hold, and by each version from there on; 0 for the opening state, or None for the last version
    /// alone.
    pub from: Option<u64>,
    /// The last line of the trace that is read.
    pub until: u64,
    /// How many bytes a frame has at least.
    pub least: u16,
}

/// The line that a number of C stands for, behind which expectations have to hold, and by each version from there on; or None, where it is that of a
/// trace's end: then by the last version alone.
pub fn from_line(number: u64) -> Option<u64>
    ensures { result ≡ line_in number }
{
    if number < AT_END { Some(number) } else { None }
}

/// Puts what is found of expectations after a trace that left this to the front of a room: 0, each holds; 1, one doesn't.
fn put_outcomes(
    alloc: Global,
    applied: &Applied,
    asked: &Asked<'_>,
    room: &mut [u8],
    written: &mut usize,
) -> i32
    ensures { FindsInto (IsSaidOfLast asked.now.from applied.now.mib.entities asked.now.least
        asked.now.lines.now) room.old room.new result written.new }
{
    *written = 0;
    let mut text = Vec::new(alloc);
    match write_outcomes(alloc, applied, asked, &mut text) {
        Ok(hold) => put_made(!hold, &text, room, written),
        Err(_) => NO_MEMORY,
    }
}

/// Puts mistakes to the front of a room: 2.
fn put_mistakes(text: &[u8], room: &mut [u8], written: &mut usize) -> i32
    ensures { TellsInto room.old room.new result written.new }
{
    if put(text, room, written) { 2 } else { SMALL }
}

/// Reads expectations, and puts what is found of them after a trace that left this, or their mistakes.
fn put_found(
    alloc: Global,
    applied: &Applied,
    wanted: &Expectations<'_>,
    room: &mut [u8],
    written: &mut usize,
) -> i32
    ensures { TellsInto room.old room.new result written.new }
{
    *written = 0;
    match read_expectations(alloc, wanted.words) {
        Ok(lines) => {
            let asked = Asked {
                lines: &lines,
                from: wanted.from,
                least: wanted.least,
                is_json: true,
            };
            put_outcomes(alloc, applied, &asked, room, written)
        }
        Err(ExpectationsFault::Mistakes(mistakes)) => {
            put_mistakes(mistakes.text().as_bytes(), room, written)
        }
        Err(ExpectationsFault::NoMemory) => NO_MEMORY,
    }
}

/// Does as [`expect_into`] does where the line behind which expectations have to hold isn't behind the last one that is read.
fn check_into(
    alloc: Global,
    wanted: &Expectations<'_>,
    room: &mut [u8],
    written: &mut usize,
    line: &mut u64,
) -> i32
    ensures { ChecksInto (first_bad (Some wanted.now.until) wanted.now.trace.now) room.old
        room.new result written.new line.new }
{
    match apply_script(alloc, wanted.trace, Some(wanted.until)) {
        Ok(applied) => {
            *line = 0;
            put_found(alloc, &applied, wanted, room, written)
        }
        Err(fault) => refuse(fault, BAD_LINE, written, line),
    }
}

/// Checks, of every frame, what is expected after a trace, and puts what is found of each expectation to the front of a room, as JSON: 0, each holds;
/// 1, one doesn't. Where their words have mistakes, all of these are put there instead, a line each: 2. `written` is how many bytes stand there, also
/// where the room is too small for them, [`SMALL`]. `line` is the first bad line of the trace, [`BAD_LINE`], or 0. Where the line behind which they have
/// to hold is behind the last one that is read, [`BACKWARD`], and nothing else is said. A message with a fault, one that is refused and a frame of
/// the trace change nothing.
pub fn expect_into(
    alloc: Global,
    wanted: &Expectations<'_>,
    room: &mut [u8],
    written: &mut usize,
    line: &mut u64,
) -> i32
    ensures { ExpectsInto wanted.now.trace.now wanted.now.from wanted.now.until room.old room.new
        result written.old written.new line.old line.new }
{
    match wanted.from {
        Some(from) if from > wanted.until => BACKWARD,
        _ => check_into(alloc, wanted, room, written, line),
    }
}
