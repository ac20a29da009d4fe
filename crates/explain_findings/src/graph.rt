//! What a graph of the managed entities is made of.
use arrayvec::ArrayVec;

/// What a node of the graph is.
#[derive(Clone, Copy)]
pub enum NodeKind {
    /// A port, which is a PPTP Ethernet UNI.
    Port,
    /// An extended VLAN tagging operation configuration data.
    Table,
    /// An 802.1p mapper service profile.
    Mapper,
    /// A GEM interworking termination point.
    Interwork,
    /// A GEM port network CTP.
    GemPort,
}

/// A node, by what it is and its number: that of a port, or of an instance.
#[derive(Clone, Copy)]
pub struct Node {
    pub kind: NodeKind,
    pub number: u16,
}

/// A node that is shown.
#[derive(Clone, Copy)]
pub struct GraphNode {
    pub node: Node,
    /// Whether the table or the mapper is in force at some port; true of the others.
    pub in_force: bool,
}

/// A pointer, or the pointers of a mapper that are the same.
#[derive(Drop)]
pub struct Edge {
    pub from: Node,
    pub to: Node,
    /// The priorities of a mapper whose frames it leads, ascending; none of another pointer.
    pub priorities: ArrayVec<u8, 8>,
    /// Whether no instance is there that it leads to.
    pub is_missing: bool,
}

/// The managed entities, or those that a port's pointers lead to.
#[derive(Drop)]
pub struct Graph {
    /// Ports, tables, mappers, GEM interworking termination points and GEM port network CTPs, in this order. Of a port's graph the
    /// last two may be numbers that nothing has: the edges to them say so.
    pub nodes: Vec<GraphNode>,
    /// The edges of the tables, of the mappers and of the GEM interworking termination points that are shown, in this order.
    pub edges: Vec<Edge>,
}
