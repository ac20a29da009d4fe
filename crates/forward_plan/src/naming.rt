//! What mappers and tables say of where they are attached.
ghost use Rattle.std.specs.Prelude.{◌≡◌, ◌≤◌, ◌↔◌, IsTrue, vec_capacity};
ghost use Rattle.managed_entity.specs.Class.{mapper_class, room_of, vlan_class};

use managed_entity::ManagedEntity;
use mib_state::{Mib, VlanConfig};
use pmapper::Mapper;
use std::alloc::{AllocError, Global};

/// What an instance says of where it is attached: the kind of what it points to, and the pointer.
#[derive(Clone, Copy)]
pub(crate) struct Naming {
    pub(crate) number: u16,
    // The TP type of a mapper, the association type of a table.
    pub(crate) kind: u8,
    pub(crate) to: u16,
}

impl Naming {
    ghost use Rattle.std.specs.Prelude.{◌≡◌, ◌<◌, ◌↔◌, IsTrue};
    ghost use Rattle.managed_entity.specs.Shown.{mapper_instance, vlan_instance};
    ghost use Rattle.forward_plan.specs.Attachment.{mapper_naming, table_naming};
    ghost use Rattle.forward_plan.specs.Ports.{port_count};

    fn new(number: u16, kind: u8, to: u16) -> Self
        ensures value { result ≡ record { number = number; kind = kind; to = to } }
        ensures fits { to < port_count }
    {
        Naming { number, kind, to }
    }

    /// What a mapper says.
    pub(crate) fn of_mapper(number: u16, mapper: &Mapper) -> Self
        ensures { result ≡ mapper_naming (mapper_instance number mapper.now) }
    {
        Naming::new(number, mapper.tp_type, mapper.tp_pointer)
    }

    /// Whether another is the same.
    pub(crate) fn is(&self, other: &Naming) -> bool
        ensures { IsTrue result ↔ (self.now ≡ other.now) }
    {
        self.number == other.number && self.kind == other.kind && self.to == other.to
    }

    /// What a table says.
    pub(crate) fn of_table(number: u16, table: &VlanConfig) -> Self
        ensures { result ≡ table_naming (vlan_instance number table.now) }
    {
        Naming::new(number, table.association, table.pointer)
    }
}

/// What all mappers and all tables say, by their places.
#[derive(Drop)]
pub(crate) struct Namings {
    pub(crate) mappers: Vec<Naming>,
    pub(crate) tables: Vec<Naming>,
    ghost for_mappers: { room_of mapper_class ≤ vec_capacity mappers },
    ghost for_tables: { room_of vlan_class ≤ vec_capacity tables },
}

impl Namings {
    ghost use Rattle.std.specs.Prelude.{◌≡◌, ◌≤◌, ◌↔◌, IfOk, IsTrue, map, length};
    ghost use Rattle.mib_state.specs.Entities.{nothing};
    ghost use Rattle.forward_plan.specs.Attachment.{AreNamings, mapper_naming, table_naming};

    /// What no instance says, with room for all.
    pub(crate) fn new(alloc: Global) -> Result<Self, AllocError>
        ensures { IfOk result (AreNamings nothing) }
    {
        Ok(Namings {
            mappers: Vec::with_capacity(alloc, Mapper::ROOM)?,
            tables: Vec::with_capacity(alloc, VlanConfig::ROOM)?,
        })
    }

    /// Becomes what the mappers and the tables of entities say. It takes no memory.
    pub(crate) fn read(&mut self, mib: &Mib)
        ensures { AreNamings mib.now.entities self.new }
    {
        self.read_mappers(mib);
        self.read_tables(mib);
    }

    fn read_mappers(&mut self, mib: &Mib)
        ensures { self.new.mappers.items ≡ map mapper_naming mib.now.entities.mappers }
    {
        self.mappers.clear();
        while let Some((number, mapper)) = mib.mapper_at(self.mappers.len()) {
            self.mappers
                .push_reserved(Naming::of_mapper(number, mapper));
        }
    }

    fn read_tables(&mut self, mib: &Mib)
        ensures tables { self.new.tables.items ≡ map table_naming mib.now.entities.vlans }
        ensures mappers { self.new.mappers.items ≡ self.old.mappers.items }
    {
        self.tables.clear();
        while let Some((number, table)) = mib.vlan_at(self.tables.len()) {
            self.tables.push_reserved(Naming::of_table(number, table));
        }
    }

    /// Whether others are the same.
    pub(crate) fn is_same(&self, others: &Namings) -> bool
        ensures { IsTrue result ↔ ((self.now.mappers.items ≡ others.now.mappers.items)
            × (self.now.tables.items ≡ others.now.tables.items)) }
    {
        are_same(&self.mappers, &others.mappers) && are_same(&self.tables, &others.tables)
    }
}

/// Whether two lists are the same.
fn are_same(one: &[Naming], other: &[Naming]) -> bool
    ensures { IsTrue result ↔ (one.now ≡ other.now) }
{
    if one.len() != other.len() {
        return false;
    }
    for place in 0..one.len() {
        if !one[place].is(&other[place]) {
            return false;
        }
    }
    true
}
