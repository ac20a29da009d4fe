//! A message and its reply.
ghost use Rattle.std.specs.Prelude.{◌≡◌};
ghost use Rattle.onu_calls.specs.Messaging.{answer_in, answer_number, answer_room, left_in};

use omci_msg::write;
use onu_cell::{CLOSED, Cell};
use std::alloc::Global;

/// Carries out the request that a message asks: 1, and the 48 bytes of the reply are in the room; 0, no answer was wanted; -1 to -4, the
/// message has this fault, and nothing was changed. The room is written only with 1.
pub fn message(cell: &mut Cell, alloc: Global, bytes: &[u8], room: &mut [u8; 48]) -> i32
    ensures number { result ≡ answer_number (answer_in cell.old.handle.held bytes.now) }
    ensures room { room.new ≡ answer_room room.old (answer_in cell.old.handle.held bytes.now) }
    ensures after { cell.new.handle.held ≡ left_in cell.old.handle.held bytes.now }
{
    let Some(mut unit) = cell.take(alloc) else {
        return CLOSED;
    };
    let answer = unit.message(bytes);
    *cell = Cell::holding(unit);
    match answer {
        Ok(Some(reply)) => {
            *room = write(&reply);
            1
        }
        Ok(None) => 0,
        Err(fault) => -i32::from(fault.code()),
    }
}
