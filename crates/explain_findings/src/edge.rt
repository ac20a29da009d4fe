//! The edges of the graph.
ghost use Rattle.std.specs.Prelude.{◌≡◌, ◌<◌, ◌++◌, ℕ, OnOk};
ghost use Rattle.std.specs.List.{filter_map};
ghost use Rattle.std.specs.Option.{option_to_list};
ghost use Rattle.managed_entity.specs.Shown.{interwork_instance, mapper_instance, vlan_instance};
ghost use Rattle.explain_findings.specs.Reach.{priorities};
ghost use Rattle.explain_findings.specs.Graph.{begins_with, interwork_edge, interwork_edge_of, joined_edge, mapper_edges, mapper_edges_of, node, plain_edge, port_edge, present, priorities_from, priorities_to, priority_edge, priority_edge_by, table_edge, table_edge_of};

use crate::append::is_number;
use crate::graph::{Edge, Node, NodeKind};
use crate::reach::{pointer_of_point, pointers, port_of_mapper};
use arrayvec::ArrayVec;
use frame_meaning::pointer_of;
use managed_entity::VlanConfig;
use mib_state::{ASSOCIATION_MAPPER, ASSOCIATION_UNI, Mib};
use pmapper::{Interwork, Mapper};
use std::alloc::AllocError;

/// Appends an edge, if there is one.
pub(crate) fn append(edges: &mut Vec<Edge>, edge: Option<Edge>) -> Result<(), AllocError>
    ensures { OnOk result (edges.new.items ≡ edges.old.items ++ option_to_list edge) }
{
    if let Some(edge) = edge {
        edges.push(edge)?;
    }
    Ok(())
}

/// Appends the edge of the table of a number.
pub(crate) fn append_table_edge(
    edges: &mut Vec<Edge>,
    mib: &Mib,
    number: u16,
) -> Result<(), AllocError>
    ensures { OnOk result (edges.new.items
        ≡ edges.old.items ++ option_to_list (table_edge_of mib.now.entities number)) }
{
    match mib.vlan(number) {
        Some(vlan) => append(edges, table_edge(mib, number, vlan)),
        None => Ok(()),
    }
}

/// The edge of a table, to its port or to its mapper.
fn table_edge(mib: &Mib, number: u16, vlan: &VlanConfig) -> Option<Edge>
    ensures { result ≡ table_edge mib.now.entities (vlan_instance number vlan.now) }
{
    let pointer = vlan.pointer;
    let from = node(NodeKind::Table, number);
    match vlan.association {
        ASSOCIATION_UNI => Some(plain_edge(from, node(NodeKind::Port, pointer), false)),
        ASSOCIATION_MAPPER => {
            let is_missing = mib.mapper(pointer).is_none();
            Some(plain_edge(from, node(NodeKind::Mapper, pointer), is_missing))
        }
        _ => None,
    }
}

fn node(kind: NodeKind, number: u16) -> Node
    ensures { result ≡ node kind number }
{
    Node { kind, number }
}

/// An edge without priorities.
fn plain_edge(from: Node, to: Node, is_missing: bool) -> Edge
    ensures { result ≡ plain_edge from to is_missing }
{
    Edge {
        from,
        to,
        priorities: ArrayVec::new(),
        is_missing,
    }
}

/// Appends the edges of the mapper of a number.
pub(crate) fn append_mapper_edges(
    edges: &mut Vec<Edge>,
    mib: &Mib,
    number: u16,
) -> Result<(), AllocError>
    ensures { OnOk result (edges.new.items
        ≡ edges.old.items ++ mapper_edges_of mib.now.entities number) }
{
    match mib.mapper(number) {
        Some(mapper) => {
            append(edges, port_edge(number, mapper))?;
            append_priority_edges(edges, mib, number, mapper)
        }
        None => Ok(()),
    }
}

/// The edge of a mapper to its port.
fn port_edge(number: u16, mapper: &Mapper) -> Option<Edge>
    ensures { result ≡ port_edge (mapper_instance number mapper.now) }
{
    match port_of_mapper(mapper) {
        Some(port) => Some(plain_edge(
            node(NodeKind::Mapper, number),
            node(NodeKind::Port, port),
            false,
        )),
        None => None,
    }
}

/// Appends the edges of a mapper's priorities.
fn append_priority_edges(
    edges: &mut Vec<Edge>,
    mib: &Mib,
    number: u16,
    mapper: &Mapper,
) -> Result<(), AllocError>
    ensures { OnOk result (edges.new.items ≡ edges.old.items
        ++ filter_map (priority_edge mib.now.entities (mapper_instance number mapper.now))
        priorities) }
{
    'each: for priority in 0..8u8 {
        append(edges, priority_edge(mib, number, mapper, priority))?;
    }
    Ok(())
}

/// The edge of a priority, if its pointer isn't that of a lower one.
fn priority_edge(mib: &Mib, number: u16, mapper: &Mapper, priority: u8) -> Option<Edge>
    requires { priority < 8 }
    ensures { result ≡ priority_edge mib.now.entities (mapper_instance number mapper.now) priority }
{
    match pointer_of(mapper, priority) {
        Some(pointer) => joined_edge(mib, number, mapper, priority, pointer),
        None => None,
    }
}

/// The edge to a GEM interworking termination point, if this is the first priority that leads there.
fn joined_edge(mib: &Mib, number: u16, mapper: &Mapper, priority: u8, pointer: u16) -> Option<Edge>
    ensures { result ≡ priority_edge_by mib.now.entities (mapper_instance number mapper.now)
        priority (Some pointer) }
{
    let priorities = priorities_to(mapper, pointer);
    if !begins_with(priority, priorities.as_slice()) {
        return None;
    }
    Some(Edge {
        from: node(NodeKind::Mapper, number),
        to: node(NodeKind::Interwork, pointer),
        priorities,
        is_missing: mib.interwork(pointer).is_none(),
    })
}

/// Whether priorities begin with this one.
fn begins_with(priority: u8, priorities: &[u8]) -> bool
    ensures { result ≡ begins_with priority priorities.now }
{
    match priorities {
        [first, ..] => *first == priority,
        [] => false,
    }
}

/// The priorities of a mapper whose pointer leads to a GEM interworking termination point.
#[tactic(auto, unfolding(crate::specs::Graph::priorities_to))]
fn priorities_to(mapper: &Mapper, pointer: u16) -> ArrayVec<u8, 8>
    ensures { (n : ℕ) → result.items ≡ priorities_to (mapper_instance n mapper.now) pointer }
{
    priorities_of(&pointers(mapper), pointer)
}

/// The priorities of the pointers that are this one.
fn priorities_of(pointers: &[Option<u16>; 8], pointer: u16) -> ArrayVec<u8, 8>
    ensures { result.items ≡ priorities_from pointer 0 pointers.now }
{
    let mut list = ArrayVec::new();
    'each: for priority in 0..8u8 {
        if is_number(pointer, pointers[usize::from(priority)]) {
            list.push(priority);
        }
    }
    list
}

/// Appends the edge of the GEM interworking termination point of a number.
pub(crate) fn append_interwork_edge(
    edges: &mut Vec<Edge>,
    mib: &Mib,
    number: u16,
) -> Result<(), AllocError>
    ensures { OnOk result (edges.new.items
        ≡ edges.old.items ++ option_to_list (interwork_edge_of mib.now.entities number)) }
{
    match mib.interwork(number) {
        Some(point) => append(edges, Some(interwork_edge(mib, number, point))),
        None => Ok(()),
    }
}

/// The edge of a GEM interworking termination point.
fn interwork_edge(mib: &Mib, number: u16, point: &Interwork) -> Edge
    ensures { result ≡ interwork_edge mib.now.entities (interwork_instance number point.now) }
{
    let pointer = pointer_of_point(point);
    let is_missing = mib.gem_port(pointer).is_none();
    plain_edge(
        node(NodeKind::Interwork, number),
        node(NodeKind::GemPort, pointer),
        is_missing,
    )
}
