//! The graph of the managed entities.
ghost use Rattle.std.specs.Prelude.{◌≡◌, ◌++◌, IfOk, OnOk, map};
ghost use Rattle.std.specs.List.{filter_map, flat_map};
ghost use Rattle.explain_findings.specs.Reach.{reached};
ghost use Rattle.explain_findings.specs.Graph.{edges, graph_node, in_force, interwork_edge_of, mapper_edges_of, nodes, shown_of, table_edge_of};

use crate::edge::{append_interwork_edge, append_mapper_edges, append_table_edge};
use crate::graph::{Edge, Graph, GraphNode, Node, NodeKind};
use crate::reach::Reach;
use crate::shown::Shown;
use mib_state::Mib;
use std::alloc::{AllocError, Global};

/// The graph of the managed entities: of all, or of a port, its table, its mapper and what the mapper's pointers lead to. There is
/// an edge for each pointer; those of a mapper that lead to one GEM interworking termination point are one.
pub fn draw(alloc: Global, mib: &Mib, port: Option<u16>) -> Result<Graph, AllocError>
    ensures nodes { IfOk result (λ graph.
        graph.nodes.items ≡ nodes mib.now.entities (shown_of mib.now.entities port)) }
    ensures edges { IfOk result (λ graph.
        graph.edges.items ≡ edges mib.now.entities (shown_of mib.now.entities port)) }
{
    let reach = Reach::of(alloc, mib)?;
    let shown = Shown::of(alloc, mib, port)?;
    let nodes = nodes_of(alloc, mib, &reach, &shown)?;
    let edges = edges_of(alloc, mib, &shown)?;
    Ok(Graph { nodes, edges })
}

/// The nodes of what is shown.
#[tactic(auto, unfolding(crate::specs::Graph::nodes))]
fn nodes_of(
    alloc: Global,
    mib: &Mib,
    reach: &Reach,
    shown: &Shown,
) -> Result<Vec<GraphNode>, AllocError>
    requires { reach.now ≡ reached mib.now.entities }
    ensures { IfOk result (λ list. list.items ≡ nodes mib.now.entities shown.now) }
{
    let mut list = Vec::new(alloc);
    append_nodes(&mut list, mib, reach, NodeKind::Port, &shown.ports)?;
    append_nodes(&mut list, mib, reach, NodeKind::Table, &shown.tables)?;
    append_nodes(&mut list, mib, reach, NodeKind::Mapper, &shown.mappers)?;
    append_nodes(&mut list, mib, reach, NodeKind::Interwork, &shown.points)?;
    append_nodes(&mut list, mib, reach, NodeKind::GemPort, &shown.gem_ports)?;
    Ok(list)
}

/// Appends the nodes of one kind.
fn append_nodes(
    nodes: &mut Vec<GraphNode>,
    mib: &Mib,
    reach: &Reach,
    kind: NodeKind,
    numbers: &[u16],
) -> Result<(), AllocError>
    requires { reach.now ≡ reached mib.now.entities }
    ensures { OnOk result (nodes.new.items
        ≡ nodes.old.items ++ map (graph_node mib.now.entities kind) numbers.now) }
{
    'each: for number in numbers {
        let in_force = in_force(mib, reach, kind, *number);
        let node = Node {
            kind,
            number: *number,
        };
        nodes.push(GraphNode { node, in_force })?;
    }
    Ok(())
}

/// Whether a table or a mapper is in force at some port.
#[tactic(auto, unfolding(crate::specs::Reach::reached))]
fn in_force(_mib: &Mib, reach: &Reach, kind: NodeKind, number: u16) -> bool
    requires { reach.now ≡ reached _mib.now.entities }
    ensures { result ≡ in_force _mib.now.entities kind number }
{
    match kind {
        NodeKind::Table => reach.tables.contains(&number),
        NodeKind::Mapper => reach.mappers.contains(&number),
        NodeKind::Port | NodeKind::Interwork | NodeKind::GemPort => true,
    }
}

/// The edges of what is shown.
#[tactic(auto, unfolding(crate::specs::Graph::edges))]
fn edges_of(alloc: Global, mib: &Mib, shown: &Shown) -> Result<Vec<Edge>, AllocError>
    ensures { IfOk result (λ list. list.items ≡ edges mib.now.entities shown.now) }
{
    let mut list = Vec::new(alloc);
    append_tables(&mut list, mib, &shown.tables)?;
    append_mappers(&mut list, mib, &shown.mappers)?;
    append_points(&mut list, mib, &shown.points)?;
    Ok(list)
}

fn append_tables(edges: &mut Vec<Edge>, mib: &Mib, numbers: &[u16]) -> Result<(), AllocError>
    ensures { OnOk result (edges.new.items
        ≡ edges.old.items ++ filter_map (table_edge_of mib.now.entities) numbers.now) }
{
    'each: for number in numbers {
        append_table_edge(edges, mib, *number)?;
    }
    Ok(())
}

fn append_mappers(edges: &mut Vec<Edge>, mib: &Mib, numbers: &[u16]) -> Result<(), AllocError>
    ensures { OnOk result (edges.new.items
        ≡ edges.old.items ++ flat_map (mapper_edges_of mib.now.entities) numbers.now) }
{
    'each: for number in numbers {
        append_mapper_edges(edges, mib, *number)?;
    }
    Ok(())
}

fn append_points(edges: &mut Vec<Edge>, mib: &Mib, numbers: &[u16]) -> Result<(), AllocError>
    ensures { OnOk result (edges.new.items
        ≡ edges.old.items ++ filter_map (interwork_edge_of mib.now.entities) numbers.now) }
{
    'each: for number in numbers {
        append_interwork_edge(edges, mib, *number)?;
    }
    Ok(())
}
