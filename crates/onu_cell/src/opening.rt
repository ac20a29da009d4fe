//! Opening and closing a cell.
ghost use Rattle.std.specs.Prelude.{◌≡◌, None};
ghost use Rattle.onu_cell.specs.Opening.{Opens, closing_number};

use crate::cell::Cell;
use crate::numbers::{CLOSED, NO_MEMORY, OPEN};
use onu_unit::Unit;
use std::alloc::Global;

/// Puts a unit without any instance, with all the memory that it will need, into an empty cell: 0. A full cell stays as it is, and so
/// does an empty one where a request for memory is refused.
pub fn open(cell: &mut Cell, alloc: Global) -> i32
    ensures { Opens cell.old.handle.held result cell.new.handle.held }
{
    if cell.is_full() {
        return OPEN;
    }
    let Ok(unit) = Unit::new(alloc) else {
        return NO_MEMORY;
    };
    let Ok(unit) = Box::new(alloc, unit) else {
        return NO_MEMORY;
    };
    *cell = Cell::holding(unit);
    0
}

/// Gives the memory of the unit in a cell back, and leaves the cell empty: 0.
pub fn close(cell: &mut Cell, alloc: Global) -> i32
    ensures number { result ≡ closing_number cell.old.handle.held }
    ensures empty { cell.new.handle.held ≡ None }
{
    match cell.take(alloc) {
        Some(_) => 0,
        None => CLOSED,
    }
}
