//! The answers to a script.
ghost use Rattle.std.specs.Prelude.{◌≡◌};
ghost use Rattle.onu_texts.specs.Replaying.{ReplaysInto};

use crate::room::put;
use onu_cell::{BAD_LINE, NO_MEMORY, SMALL};
use script_replay::{ReplayFault, replay};
use std::alloc::Global;

/// Answers a script from a unit without any instance on, and puts the answers to the front of a room: 0. Where a line is bad,
/// [`BAD_LINE`], and the answers to the lines before it are in the room. `written` is how many bytes the answers have, also where the room
/// is too small for them, [`SMALL`]; `line` is the number, from 1, of the first bad line, or 0. With [`NO_MEMORY`] nothing is answered.
pub fn replay_into(
    alloc: Global,
    script: &[u8],
    room: &mut [u8],
    written: &mut usize,
    line: &mut u64,
) -> i32
    ensures { ReplaysInto script.now room.old room.new result written.new line.new }
{
    let mut reader: &[u8] = script;
    let mut answers = Vec::new(alloc);
    let outcome = replay(alloc, &mut reader, &mut answers);
    *written = 0;
    *line = 0;
    let number = match outcome {
        Ok(()) => 0,
        Err(ReplayFault::BadLine(first)) => {
            *line = first;
            BAD_LINE
        }
        Err(_) => return NO_MEMORY,
    };
    if put(&answers, room, written) {
        number
    } else {
        SMALL
    }
}
