//! What a node is called in the text.
use explain_findings::{Node, NodeKind};
use std::fmt;

/// The short word for a kind of node.
pub(crate) fn word_of(kind: NodeKind) -> &'static str {
    match kind {
        NodeKind::Port => "port",
        NodeKind::Table => "vlan",
        NodeKind::Mapper => "mapper",
        NodeKind::Interwork => "interwork",
        NodeKind::GemPort => "gem-port",
    }
}

/// A node's name: of a port `port 257`, and of an instance `mapper 0x0601`.
#[derive(Clone, Copy)]
pub(crate) struct NodeName(pub(crate) Node);

impl fmt::Display for NodeName {
    fn fmt<W: fmt::Write>(&self, f: &mut fmt::Formatter<W>) -> fmt::Result {
        let Node { kind, number } = self.0;
        let word = word_of(kind);
        match kind {
            NodeKind::Port => write!(f, "{word} {number}"),
            _ => write!(f, "{word} 0x{number:04x}"),
        }
    }
}
