//! What is attached to a port.
ghost use Rattle.std.specs.Prelude.{◌≡◌, ◌≤◌};
ghost use Rattle.managed_entity.specs.Class.{room_of};
ghost use Rattle.mib_state.specs.Entities.{instances_of};
ghost use Rattle.forward_plan.specs.Attachment.{place_or_none};

use managed_entity::class::{MAPPER, VLAN};
use mib_state::Mib;

/// The place of a table or a mapper that a port doesn't have.
pub(crate) const NONE: u8 = 255;

/// What is attached to a port: its table and its mapper, each by its place among the instances of its class, or `NONE`.
#[derive(Clone, Copy)]
pub(crate) struct Attached {
    pub(crate) table: u8,
    pub(crate) mapper: u8,
}

impl Attached {
    ghost use Rattle.forward_plan.specs.Attachment.{attached_at};

    /// Neither a table nor a mapper.
    pub(crate) const NOTHING: Attached = Attached {
        table: NONE,
        mapper: NONE,
    };

    /// What is attached to a port.
    pub(crate) fn of(mib: &Mib, port: u16) -> Self
        ensures { result ≡ attached_at mib.now.entities port }
    {
        Attached {
            table: place_of(mib, VLAN, mib.table_of_port(port)),
            mapper: place_of(mib, MAPPER, mib.mapper_of_port(port)),
        }
    }
}

/// The place of an instance of a class, or `NONE`.
fn place_of(mib: &Mib, class: u16, instance: Option<u16>) -> u8
    requires { room_of class ≤ 255 }
    ensures { result ≡ place_or_none (instances_of mib.now.entities class) instance }
{
    let Some(number) = instance else {
        return NONE;
    };
    match mib.place_of(class, number) {
        Some(place) => place as u8,
        None => NONE,
    }
}
