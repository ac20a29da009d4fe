//! The cell.
ghost use Rattle.std.specs.Prelude.{◌≡◌, Some, None, true, false};
ghost use Rattle.std.specs.Option.{MatchOption};
ghost use Rattle.onu_cell.specs.Full.{is_full};

use crate::handle::Handle;
use onu_unit::Unit;
use raw_box::RawBox;
use std::alloc::Global;
use std::mem::replace;

/// What C owns: a unit, or nothing where all bytes are zero.
#[repr(C)]
#[derive(Drop)]
pub struct Cell {
    full: bool,
    pub handle: Handle,
    ghost whether: { is_full handle.held ≡ full },
}

impl Cell {
    /// An empty cell.
    pub(crate) fn empty() -> Cell
        ensures { result.handle.held ≡ None }
    {
        Cell {
            full: false,
            handle: Handle::none(),
        }
    }

    /// A cell with a unit in it.
    pub fn holding(unit: Box<Unit>) -> Cell
        ensures { result.handle.held ≡ Some unit.value }
    {
        Cell {
            full: true,
            handle: Handle::of(RawBox::of(unit)),
        }
    }

    /// Whether a unit stands in the cell.
    pub(crate) fn is_full(&self) -> bool
        ensures { result ≡ is_full self.now.handle.held }
    {
        self.full
    }

    /// Takes the unit out of a cell, and leaves it empty.
    pub fn take(&mut self, alloc: Global) -> Option<Box<Unit>>
        ensures taken { MatchOption result (self.old.handle.held ≡ None)
            (λ unit. self.old.handle.held ≡ Some unit.value) }
        ensures empty { self.new.handle.held ≡ None }
    {
        let Cell { full, handle } = replace(self, Cell::empty());
        if full {
            Some(handle.into_raw_box(alloc).into_box())
        } else {
            None
        }
    }
}
