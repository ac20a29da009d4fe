//! Why a frame goes where it goes.
ghost use Rattle.std.specs.Prelude.{◌≡◌};
ghost use Rattle.onu_texts.specs.Room.{ExplainsInto};

use crate::room::put;
use onu_cell::{CLOSED, Cell, NO_MEMORY, SMALL};
use std::alloc::Global;
use text_explanations::{Incoming, Traced, write_explanation_json};

/// Explains what becomes of a frame that comes in at a port of the unit in a cell, and puts the explanation to the front of a room, as
/// JSON: 0. `written` is how many bytes it has, also where the room is too small for it, [`SMALL`]. The unit stays as it is.
pub fn explain_into(
    cell: &mut Cell,
    alloc: Global,
    port: u16,
    frame: &[u8],
    room: &mut [u8],
    written: &mut usize,
) -> i32
    ensures same { cell.new.handle.held ≡ cell.old.handle.held }
    ensures put { ExplainsInto cell.old.handle.held room.old room.new result written.old
        written.new }
{
    let Some(unit) = cell.take(alloc) else {
        return CLOSED;
    };
    *written = 0;
    let mut text = Vec::new(alloc);
    let traced = Traced {
        mib: unit.mib(),
        accepted: &[],
    };
    let incoming = Incoming { port, bytes: frame };
    let made = write_explanation_json(alloc, &traced, &incoming, &mut text);
    *cell = Cell::holding(unit);
    if made.is_err() {
        return NO_MEMORY;
    }
    if put(&text, room, written) { 0 } else { SMALL }
}
