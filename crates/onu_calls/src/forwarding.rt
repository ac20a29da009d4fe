//! A frame and its verdict.
ghost use Rattle.std.specs.Prelude.{◌≡◌};
ghost use Rattle.onu_calls.specs.Forwarding.{StandsIn, verdict_in, verdict_number, verdict_room};

use crate::verdict::CVerdict;
use onu_cell::{CLOSED, Cell};
use onu_unit::Verdict;
use std::alloc::Global;

/// Forwards a frame that comes in at a port: 1, it leaves; 0, it is dropped. The verdict says how, or why. No byte of the frame is copied.
pub fn forward(cell: &mut Cell, alloc: Global, port: u16, frame: &[u8], said: &mut CVerdict) -> i32
    ensures number { result ≡ verdict_number (verdict_in cell.old.handle.held port frame.now) }
    ensures said { said.new ≡ verdict_room said.old frame.now (verdict_in cell.old.handle.held port frame.now) }
    ensures stands { StandsIn frame.now said.new.rest (verdict_in cell.old.handle.held port frame.now) }
    ensures same { cell.new.handle.held ≡ cell.old.handle.held }
{
    let Some(mut unit) = cell.take(alloc) else {
        return CLOSED;
    };
    let verdict = unit.forward(port, frame);
    *cell = Cell::holding(unit);
    *said = CVerdict::of(frame, &verdict);
    match verdict {
        Verdict::Forward { .. } => 1,
        Verdict::Drop(_) => 0,
    }
}
