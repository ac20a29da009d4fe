//! What the lines of a script say.
ghost use Rattle.onu_scripts.specs.Making.{MakesInto};

use crate::making::put_made;
use onu_cell::NO_MEMORY;
use std::alloc::{AllocError, Global};
use text_messages::decode_json;
use text_writing::{DecodeFault, Mistake};

/// What is wrong in a line, as the mistakes of words are said.
fn mistake_text(alloc: Global, line: u64, mistake: &Mistake) -> Result<String, AllocError> {
    format!(in alloc; "line {line}, {mistake}\n")
}

/// Decodes a script or a dialogue, and puts an object of JSON for each of its lines, on a line of its own, to the front of a room: 0. Where
/// a line is bad, what is wrong in the first such line is put there instead: 1. `written` is how many bytes stand there, also where
/// the room is too small for them, [`SMALL`](onu_cell::SMALL). With [`NO_MEMORY`] it is 0.
pub fn decode_into(alloc: Global, script: &[u8], room: &mut [u8], written: &mut usize) -> i32
    ensures { MakesInto room.old room.new result written.new }
{
    *written = 0;
    let mut reader: &[u8] = script;
    let mut objects = Vec::new(alloc);
    match decode_json(alloc, &mut reader, &mut objects) {
        Ok(()) => put_made(false, &objects, room, written),
        Err(DecodeFault::BadLine(line, mistake)) => match mistake_text(alloc, line, &mistake) {
            Ok(text) => put_made(true, text.as_bytes(), room, written),
            Err(AllocError) => NO_MEMORY,
        },
        Err(_) => NO_MEMORY,
    }
}
