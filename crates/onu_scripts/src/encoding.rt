//! A script made of words.
ghost use Rattle.onu_scripts.specs.Making.{MakesInto};

use crate::making::put_made;
use onu_cell::NO_MEMORY;
use std::alloc::Global;
use text_encode::{EncodeFault, encode};

/// Makes a script of a text in words, and puts it to the front of a room: 0. Where the text has mistakes, these are put there, a line each:
/// 1. `written` is how many bytes stand there, also where the room is too small for them, [`SMALL`](onu_cell::SMALL). With [`NO_MEMORY`] it is 0.
/// The identifiers of the messages count from `first_identifier`.
pub fn encode_into(
    alloc: Global,
    words: &[u8],
    first_identifier: u16,
    room: &mut [u8],
    written: &mut usize,
) -> i32
    ensures { MakesInto room.old room.new result written.new }
{
    *written = 0;
    let mut reader: &[u8] = words;
    let mut script = Vec::new(alloc);
    let mut mistakes = Vec::new(alloc);
    match encode(
        alloc,
        first_identifier,
        &mut reader,
        &mut script,
        &mut mistakes,
    ) {
        Ok(()) => put_made(false, &script, room, written),
        // There is one at least. They are put here whole, or not at all where there is no memory for them.
        Err(EncodeFault::Mistakes(_)) if !mistakes.is_empty() => {
            put_made(true, &mistakes, room, written)
        }
        Err(_) => NO_MEMORY,
    }
}
