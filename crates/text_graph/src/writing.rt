//! The graph as text.
use crate::edge::Priorities;
use crate::label::Attributes;
use crate::name::NodeName;
use explain_findings::{Edge, Graph, GraphNode, Node, NodeKind, draw};
use mib_state::Mib;
use std::alloc::{AllocError, Global};
use std::io::Write;
use text_writing::{TextFault, write_whole};

/// Writes the graph of the managed entities, or of what a port's pointers lead to, in Graphviz's language: a node for each port and
/// each instance, by its name and the attributes that matter, grey where a table or a mapper isn't in force; an edge for each pointer,
/// those of a mapper labelled by their priorities; and dashed what a pointer leads to and isn't there.
pub fn write_graph<W: Write>(
    alloc: Global,
    mib: &Mib,
    port: Option<u16>,
    writer: &mut W,
) -> Result<(), TextFault> {
    let graph = draw(alloc, mib, port)?;
    write_whole(
        writer,
        b"digraph onu {\n  rankdir=LR;\n  node [shape=box];\n",
    )?;
    write_nodes(alloc, mib, &graph, writer)?;
    write_edges(alloc, &graph, writer)?;
    write_whole(writer, b"}\n")?;
    Ok(())
}

fn write_nodes<W: Write>(
    alloc: Global,
    mib: &Mib,
    graph: &Graph,
    writer: &mut W,
) -> Result<(), TextFault> {
    for node in &graph.nodes {
        if is_there(mib, node.node) {
            let text = node_text(alloc, mib, *node)?;
            write_whole(writer, text.as_bytes())?;
        }
    }
    Ok(())
}

/// Whether a node is a port, or an instance that is there.
fn is_there(mib: &Mib, node: Node) -> bool {
    match node.kind {
        NodeKind::Port => true,
        NodeKind::Table => mib.vlan(node.number).is_some(),
        NodeKind::Mapper => mib.mapper(node.number).is_some(),
        NodeKind::Interwork => mib.interwork(node.number).is_some(),
        NodeKind::GemPort => mib.gem_port(node.number).is_some(),
    }
}

/// The line of a node.
fn node_text(alloc: Global, mib: &Mib, shown: GraphNode) -> Result<String, AllocError> {
    let node = shown.node;
    let name = NodeName(node);
    let attributes = Attributes { mib, node };
    let style = if shown.in_force {
        ""
    } else {
        ", color=grey, fontcolor=grey"
    };
    format!(in alloc; "  \"{name}\" [label=\"{name}\\n{attributes}\"{style}];\n")
}

fn write_edges<W: Write>(alloc: Global, graph: &Graph, writer: &mut W) -> Result<(), TextFault> {
    for edge in &graph.edges {
        if edge.is_missing {
            let name = NodeName(edge.to);
            let text = format!(in alloc;
                "  \"{name}\" [label=\"{name}\\nmissing\", style=dashed];\n"
            )?;
            write_whole(writer, text.as_bytes())?;
        }
        let text = edge_text(alloc, edge)?;
        write_whole(writer, text.as_bytes())?;
    }
    Ok(())
}

/// The line of an edge.
fn edge_text(alloc: Global, edge: &Edge) -> Result<String, AllocError> {
    let (from, to) = (NodeName(edge.from), NodeName(edge.to));
    let style = if edge.is_missing {
        ", style=dashed"
    } else {
        ""
    };
    let priorities = Priorities(edge.priorities.as_slice());
    format!(in alloc; "  \"{from}\" -> \"{to}\" [label=\"{priorities}\"{style}];\n")
}
