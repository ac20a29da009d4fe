//! The address of a unit, as it crosses to C.
ghost use Rattle.std.specs.Prelude.{◌≡◌, Option, Some, None, IsSome};
ghost use Rattle.std.specs.Coded.{coded_option};
ghost use Rattle.mib_upload.specs.Upload.{DeskState};
ghost use Rattle.onu_cell.specs.Holds.{coded_state};

use onu_unit::Unit;
use raw_box::RawBox;
use std::alloc::Global;
use std::marker::Model;
use std::ptr::null_mut;

/// The address of a unit on the heap, which it owns, or none.
#[repr(C)]
#[derive(Drop)]
pub struct Handle {
    at: *mut u8,
    pub ghost held: { Option DeskState } by { coded_option coded_state },
}

impl Model for Handle {
    ghost use Rattle.onu_cell.specs.Holds.{holds};

    ghost also_owns = { λ h. holds h.at h.held };
}

impl Handle {
    /// No unit.
    pub(crate) fn none() -> Handle
        ensures { result.held ≡ None }
    {
        Handle { at: null_mut() }
    }

    /// Takes over a unit by its address.
    pub(crate) fn of(unit: RawBox<Unit, Global>) -> Handle
        ensures { result.held ≡ Some unit.value }
    {
        let RawBox { at, alloc: _ } = unit;
        Handle { at: at.cast() }
    }

    /// Gives the unit up to whoever has its allocator.
    pub(crate) fn into_raw_box(self, alloc: Global) -> RawBox<Unit, Global>
        requires { IsSome self.held }
        ensures { self.held ≡ Some result.value }
    {
        let Handle { at } = self;
        RawBox {
            at: at.cast(),
            alloc,
        }
    }
}
