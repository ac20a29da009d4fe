//! What two configurations make of every frame, and what a change does on its way.
ghost use Rattle.std.specs.Prelude.{◌≡◌, Some, ⊤};
ghost use Rattle.script_trace.specs.Script.{first_bad};
ghost use Rattle.text_every_frame.specs.Same.{IsSaid};
ghost use Rattle.onu_cell.specs.Numbers.{bad_after, bad_line};
ghost use Rattle.onu_scripts.specs.Comparing.{DifferencesInto, FindsInto, IsRefusal, MomentsInto, ReadsInto, TearsInto, entities_behind};

use crate::making::put_made;
use onu_cell::{BACKWARD, BAD_AFTER, BAD_LINE, NO_MEMORY};
use script_trace::{Applied, ScriptFault, apply_script};
use std::alloc::Global;
use text_differences::Compared;
use text_every_frame::{Frames, write_differences, write_tears};
use text_explanations::Traced;

/// Two configurations: what a trace leads to behind a line, and another behind another. Of each no line behind is read.
#[derive(Clone, Copy)]
pub struct Sides<'a> {
    pub before: &'a [u8],
    pub from: u64,
    pub after: &'a [u8],
    pub until: u64,
    /// The frames that are looked at.
    pub frames: Frames,
}

/// A change: the messages of a trace behind a line, up to another. No line behind that one is read.
#[derive(Clone, Copy)]
pub struct Moments<'a> {
    pub trace: &'a [u8],
    pub from: u64,
    pub until: u64,
    /// The frames that are looked at.
    pub frames: Frames,
}

/// Puts what two configurations treat differently to the front of a room: 0, nothing; 1, something.
fn put_differences(
    alloc: Global,
    before: &Applied,
    after: &Applied,
    frames: Frames,
    room: &mut [u8],
    written: &mut usize,
) -> i32
    ensures { FindsInto (IsSaid before.now.mib.entities after.now.mib.entities frames.port
        frames.least) room.old room.new result written.new }
{
    *written = 0;
    let compared = Compared {
        before: Traced {
            mib: &before.mib,
            accepted: &before.accepted,
        },
        after: Traced {
            mib: &after.mib,
            accepted: &after.accepted,
        },
    };
    let mut text = Vec::new(alloc);
    match write_differences(alloc, &compared, frames, true, &mut text) {
        Ok(is_same) => put_made(!is_same, &text, room, written),
        Err(_) => NO_MEMORY,
    }
}

/// Puts which moments of a change are torn, up to the end of a trace that left this, to the front of a room: 0, none; 1, some.
fn put_tears(
    alloc: Global,
    applied: &Applied,
    from: u64,
    frames: Frames,
    room: &mut [u8],
    written: &mut usize,
) -> i32
    ensures { FindsInto (λ said. ⊤) room.old room.new result written.new }
{
    *written = 0;
    let mut text = Vec::new(alloc);
    match write_tears(alloc, applied, from, frames, true, &mut text) {
        Ok(is_hitless) => put_made(!is_hitless, &text, room, written),
        Err(_) => NO_MEMORY,
    }
}

/// The number of a fault, of a trace whose bad lines have this one. No byte is written then, and the line is the bad one, or 0.
pub(crate) fn refuse(fault: ScriptFault, bad: i32, written: &mut usize, line: &mut u64) -> i32
    ensures { IsRefusal bad fault result written.new line.new }
{
    *written = 0;
    match fault {
        ScriptFault::BadLine(first) => {
            *line = first;
            bad
        }
        ScriptFault::NoMemory => {
            *line = 0;
            NO_MEMORY
        }
    }
}

/// Does as [`differences_into`] does, where the configuration before is this one.
fn compare_with(
    alloc: Global,
    before: &Applied,
    sides: &Sides<'_>,
    room: &mut [u8],
    written: &mut usize,
    line: &mut u64,
) -> i32
    ensures { ReadsInto bad_after (first_bad (Some sides.now.until) sides.now.after.now)
        (IsSaid before.now.mib.entities (entities_behind sides.now.until sides.now.after.now)
        sides.now.frames.port sides.now.frames.least) room.old room.new result written.new
        line.new }
{
    match apply_script(alloc, sides.after, Some(sides.until)) {
        Ok(after) => {
            *line = 0;
            put_differences(alloc, before, &after, sides.frames, room, written)
        }
        Err(fault) => refuse(fault, BAD_AFTER, written, line),
    }
}

/// Compares two configurations for every frame, and puts which frames they treat differently to the front of a room, as JSON: 0, none; 1, some.
/// `written` is how many bytes it has, also where the room is too small for it, [`SMALL`](onu_cell::SMALL). `line` is the first bad line of the
/// trace before, [`BAD_LINE`], or else of that after, [`BAD_AFTER`], or 0. A message with a fault, one that is refused and a frame of a trace change
/// nothing.
pub fn differences_into(
    alloc: Global,
    sides: &Sides<'_>,
    room: &mut [u8],
    written: &mut usize,
    line: &mut u64,
) -> i32
    ensures { DifferencesInto sides.now.before.now sides.now.from sides.now.after.now
        sides.now.until sides.now.frames.port sides.now.frames.least room.old room.new result
        written.new line.new }
{
    match apply_script(alloc, sides.before, Some(sides.from)) {
        Ok(before) => compare_with(alloc, &before, sides, room, written, line),
        Err(fault) => refuse(fault, BAD_LINE, written, line),
    }
}

/// Does as [`moments_into`] does, where the configuration after is this one.
fn compare_earlier(
    alloc: Global,
    after: &Applied,
    change: &Moments<'_>,
    room: &mut [u8],
    written: &mut usize,
    line: &mut u64,
) -> i32
    ensures { ReadsInto bad_line (first_bad (Some change.now.from) change.now.trace.now)
        (IsSaid (entities_behind change.now.from change.now.trace.now) after.now.mib.entities
        change.now.frames.port change.now.frames.least) room.old room.new result written.new
        line.new }
{
    match apply_script(alloc, change.trace, Some(change.from)) {
        Ok(before) => {
            *line = 0;
            put_differences(alloc, &before, after, change.frames, room, written)
        }
        Err(fault) => refuse(fault, BAD_LINE, written, line),
    }
}

/// Does as [`differences_into`] does with the two ends of a change. Where it is to begin behind the line where it ends, [`BACKWARD`], and nothing else
/// is said.
pub fn moments_into(
    alloc: Global,
    change: &Moments<'_>,
    room: &mut [u8],
    written: &mut usize,
    line: &mut u64,
) -> i32
    ensures { MomentsInto change.now.trace.now change.now.from change.now.until
        change.now.frames.port change.now.frames.least room.old room.new result written.old
        written.new line.old line.new }
{
    if change.from > change.until {
        return BACKWARD;
    }
    match apply_script(alloc, change.trace, Some(change.until)) {
        Ok(after) => compare_earlier(alloc, &after, change, room, written, line),
        Err(fault) => refuse(fault, BAD_LINE, written, line),
    }
}

/// Looks at each moment of a change for every frame, and puts which moments are torn to the front of a room, as JSON: 0, none; 1, some. All else is
/// as of [`moments_into`].
pub fn hitless_into(
    alloc: Global,
    change: &Moments<'_>,
    room: &mut [u8],
    written: &mut usize,
    line: &mut u64,
) -> i32
    ensures { TearsInto change.now.trace.now change.now.from change.now.until room.old room.new
        result written.old written.new line.old line.new }
{
    if change.from > change.until {
        return BACKWARD;
    }
    match apply_script(alloc, change.trace, Some(change.until)) {
        Ok(applied) => {
            *line = 0;
            put_tears(alloc, &applied, change.from, change.frames, room, written)
        }
        Err(fault) => refuse(fault, BAD_LINE, written, line),
    }
}
