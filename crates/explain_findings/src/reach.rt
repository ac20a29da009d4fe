//! Which instances the pointers of the managed entities lead to from a port.
ghost use Rattle.std.specs.Prelude.{◌≡◌, ◌++◌, ℕ, IfOk, OnOk, map};
ghost use Rattle.std.specs.List.{filter_map, flat_map};
ghost use Rattle.std.specs.Option.{option_to_list};
ghost use Rattle.managed_entity.specs.Class.{class_number};
ghost use Rattle.managed_entity.specs.Instance.{attribute_number};
ghost use Rattle.managed_entity.specs.Shown.{interwork_instance, mapper_instance, vlan_instance};
ghost use Rattle.mib_state.specs.Entities.{instances_of};
ghost use Rattle.mib_state.specs.Attached.{mapper_of_port, table_of_port};
ghost use Rattle.pmapper.specs.Mapper.{pointer_of};
ghost use Rattle.frame_meaning.specs.Meaning.{pointers_at};
ghost use Rattle.explain_findings.specs.Reach.{gem_port_pointer, numbers, pointers_of, port_of_mapper, port_of_table, ports, priorities, reach_from, reached};

use frame_meaning::pointer_of;
use managed_entity::{Class, VlanConfig};
use mib_state::{ASSOCIATION_UNI, Mib, TP_TYPE_UNI};
use pmapper::{Interwork, Mapper};
use std::alloc::{AllocError, Global};
use std::marker::Model;

/// The numbers of the instances that pointers lead to from a port, and of all GEM port network CTPs.
#[derive(Drop)]
pub(crate) struct Reach {
    pub(crate) tables: Vec<u16>,
    pub(crate) mappers: Vec<u16>,
    pub(crate) points: Vec<u16>,
    pub(crate) gem_ports: Vec<u16>,
    pub(crate) all_gem_ports: Vec<u16>,
}

impl Model for Reach {
    ghost use Rattle.explain_findings.specs.Reach.{Reached};

    ghost Value = { Reached };

    ghost view = { λ r. record {
      tables = r.tables.items;
      mappers = r.mappers.items;
      points = r.points.items;
      gem_ports = r.gem_ports.items;
      all_gem_ports = r.all_gem_ports.items;
    } };
}

impl Reach {
    /// What pointers lead to among the managed entities.
    pub(crate) fn of(alloc: Global, mib: &Mib) -> Result<Self, AllocError>
        ensures { IfOk result (λ reach. reach ≡ reached mib.now.entities) }
    {
        let ports = ports(alloc, mib)?;
        Self::from_ports(alloc, mib, &ports)
    }

    /// What pointers lead to from these ports.
    pub(crate) fn from_ports(alloc: Global, mib: &Mib, ports: &[u16]) -> Result<Self, AllocError>
        ensures { IfOk result (λ reach. reach ≡ reach_from mib.now.entities ports.now) }
    {
        let tables = tables_at(alloc, mib, ports)?;
        let mappers = mappers_at(alloc, mib, ports)?;
        let points = points_of(alloc, mib, &mappers)?;
        let gem_ports = gem_ports_of(alloc, mib, &points)?;
        let all_gem_ports = numbers(alloc, mib, Class::GemPort)?;
        Ok(Reach {
            tables,
            mappers,
            points,
            gem_ports,
            all_gem_ports,
        })
    }
}

/// The port that a mapper points to.
pub(crate) fn port_of_mapper(mapper: &Mapper) -> Option<u16>
    ensures { (n : ℕ) → result ≡ port_of_mapper (mapper_instance n mapper.now) }
{
    (mapper.tp_type == TP_TYPE_UNI).then_some(mapper.tp_pointer)
}

/// The port that a table points to.
pub(crate) fn port_of_table(vlan: &VlanConfig) -> Option<u16>
    ensures { (n : ℕ) → result ≡ port_of_table (vlan_instance n vlan.now) }
{
    (vlan.association == ASSOCIATION_UNI).then_some(vlan.pointer)
}

/// The ports that a mapper or a table points to.
#[tactic(auto, unfolding(crate::specs::Reach::ports))]
pub(crate) fn ports(alloc: Global, mib: &Mib) -> Result<Vec<u16>, AllocError>
    ensures { IfOk result (λ list. list.items ≡ ports mib.now.entities) }
{
    let mut list = Vec::new(alloc);
    append_ports_of_mappers(&mut list, mib)?;
    append_ports_of_tables(&mut list, mib)?;
    Ok(list)
}

/// Appends a number, if there is one.
fn append(list: &mut Vec<u16>, number: Option<u16>) -> Result<(), AllocError>
    ensures { OnOk result (list.new.items ≡ list.old.items ++ option_to_list number) }
{
    if let Some(number) = number {
        list.push(number)?;
    }
    Ok(())
}

fn append_ports_of_mappers(list: &mut Vec<u16>, mib: &Mib) -> Result<(), AllocError>
    ensures { OnOk result (list.new.items
        ≡ list.old.items ++ filter_map port_of_mapper mib.now.entities.mappers) }
{
    let mut place = 0;
    'each: while let Some((_, mapper)) = mib.mapper_at(place) {
        append(list, port_of_mapper(mapper))?;
        place += 1;
    }
    Ok(())
}

fn append_ports_of_tables(list: &mut Vec<u16>, mib: &Mib) -> Result<(), AllocError>
    ensures { OnOk result (list.new.items
        ≡ list.old.items ++ filter_map port_of_table mib.now.entities.vlans) }
{
    let mut place = 0;
    'each: while let Some((_, vlan)) = mib.vlan_at(place) {
        append(list, port_of_table(vlan))?;
        place += 1;
    }
    Ok(())
}

/// The mappers of ports.
fn mappers_at(alloc: Global, mib: &Mib, ports: &[u16]) -> Result<Vec<u16>, AllocError>
    ensures { IfOk result (λ list.
        list.items ≡ filter_map (mapper_of_port mib.now.entities) ports.now) }
{
    let mut list = Vec::new(alloc);
    'each: for port in ports {
        append(&mut list, mib.mapper_of_port(*port))?;
    }
    Ok(list)
}

/// The tables of ports.
fn tables_at(alloc: Global, mib: &Mib, ports: &[u16]) -> Result<Vec<u16>, AllocError>
    ensures { IfOk result (λ list.
        list.items ≡ filter_map (table_of_port mib.now.entities) ports.now) }
{
    let mut list = Vec::new(alloc);
    'each: for port in ports {
        append(&mut list, mib.table_of_port(*port))?;
    }
    Ok(list)
}

/// The GEM interworking termination points that mappers point to.
fn points_of(alloc: Global, mib: &Mib, mappers: &[u16]) -> Result<Vec<u16>, AllocError>
    ensures { IfOk result (λ list.
        list.items ≡ flat_map (pointers_of mib.now.entities) mappers.now) }
{
    let mut list = Vec::new(alloc);
    'each: for number in mappers {
        append_pointers(&mut list, mib, *number)?;
    }
    Ok(list)
}

/// Appends the pointers of the mapper of a number that aren't null.
fn append_pointers(list: &mut Vec<u16>, mib: &Mib, number: u16) -> Result<(), AllocError>
    ensures { OnOk result (list.new.items
        ≡ list.old.items ++ pointers_of mib.now.entities number) }
{
    match mib.mapper(number) {
        Some(mapper) => append_all(list, &pointers(mapper)),
        None => Ok(()),
    }
}

/// Appends the numbers that there are.
fn append_all(list: &mut Vec<u16>, numbers: &[Option<u16>]) -> Result<(), AllocError>
    ensures { OnOk result (list.new.items
        ≡ list.old.items ++ filter_map (λ (number : _). number) numbers.now) }
{
    'each: for number in numbers {
        append(list, *number)?;
    }
    Ok(())
}

/// The pointer of each priority of a mapper, or None where it is null.
pub(crate) fn pointers(mapper: &Mapper) -> [Option<u16>; 8]
    ensures { (n : ℕ)
        → result ≡ map (pointer_of (pointers_at (mapper_instance n mapper.now))) priorities }
{
    [
        pointer_of(mapper, 0),
        pointer_of(mapper, 1),
        pointer_of(mapper, 2),
        pointer_of(mapper, 3),
        pointer_of(mapper, 4),
        pointer_of(mapper, 5),
        pointer_of(mapper, 6),
        pointer_of(mapper, 7),
    ]
}

/// The GEM port network CTPs that GEM interworking termination points point to.
fn gem_ports_of(alloc: Global, mib: &Mib, points: &[u16]) -> Result<Vec<u16>, AllocError>
    ensures { IfOk result (λ list.
        list.items ≡ filter_map (gem_port_pointer mib.now.entities) points.now) }
{
    let mut list = Vec::new(alloc);
    'each: for number in points {
        append(&mut list, gem_port_pointer(mib, *number))?;
    }
    Ok(list)
}

/// The GEM port network CTP that a GEM interworking termination point points to.
fn gem_port_pointer(mib: &Mib, number: u16) -> Option<u16>
    ensures { result ≡ gem_port_pointer mib.now.entities number }
{
    match mib.interwork(number) {
        Some(point) => Some(pointer_of_point(point)),
        None => None,
    }
}

/// The pointer of a GEM interworking termination point.
pub(crate) fn pointer_of_point(point: &Interwork) -> u16
    ensures { (n : ℕ) → result ≡ attribute_number 1 (interwork_instance n point.now) }
{
    point.gem_port_pointer
}

/// The numbers of the instances of a class.
pub(crate) fn numbers(alloc: Global, mib: &Mib, class: Class) -> Result<Vec<u16>, AllocError>
    ensures { IfOk result (λ list.
        list.items ≡ numbers (instances_of mib.now.entities (class_number class))) }
{
    let mut list = Vec::new(alloc);
    let mut place = 0;
    'each: while let Some(held) = mib.instance_at(class.number(), place) {
        list.push(held.number())?;
        place += 1;
    }
    Ok(list)
}
