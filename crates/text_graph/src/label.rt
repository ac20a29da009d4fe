//! What stands in a node below its name: the attributes that matter.
use explain_findings::{Node, NodeKind};
use mib_state::Mib;
use std::fmt;

/// The attributes of a node that matter, each on a line of its own.
#[derive(Clone, Copy)]
pub(crate) struct Attributes<'m> {
    pub(crate) mib: &'m Mib,
    pub(crate) node: Node,
}

impl fmt::Display for Attributes<'_> {
    fn fmt<W: fmt::Write>(&self, f: &mut fmt::Formatter<W>) -> fmt::Result {
        let number = self.node.number;
        match self.node.kind {
            NodeKind::Port => f.write_str("PPTP Ethernet UNI"),
            NodeKind::Table => put_table(self.mib, number, f),
            NodeKind::Mapper => put_mapper(self.mib, number, f),
            NodeKind::Interwork => f.write_str("interworking termination point"),
            NodeKind::GemPort => put_gem_port(self.mib, number, f),
        }
    }
}

fn put_table<W: fmt::Write>(mib: &Mib, number: u16, f: &mut fmt::Formatter<W>) -> fmt::Result {
    let Some(vlan) = mib.vlan(number) else {
        return Ok(());
    };
    let association = vlan.association;
    let (input, output) = (vlan.settings.input_tpid, vlan.settings.output_tpid);
    let entries = vlan.table.len();
    write!(
        f,
        "association type {association}\\ninput TPID 0x{input:04x}, output TPID 0x{output:04x}\\n{entries} entries"
    )
}

fn put_mapper<W: fmt::Write>(mib: &Mib, number: u16, f: &mut fmt::Formatter<W>) -> fmt::Result {
    let Some(mapper) = mib.mapper(number) else {
        return Ok(());
    };
    let (tp_type, option) = (mapper.tp_type, mapper.unmarked_frame_option);
    let default = mapper.default_p_bit_assumption % 8;
    write!(
        f,
        "TP type {tp_type}\\nunmarked frame option {option}, default P-bit {default}"
    )
}

fn put_gem_port<W: fmt::Write>(mib: &Mib, number: u16, f: &mut fmt::Formatter<W>) -> fmt::Result {
    let Some(gem) = mib.gem_port(number) else {
        return Ok(());
    };
    let (port_id, direction) = (gem.port_id, gem.direction);
    write!(f, "port-ID {port_id}\\ndirection {direction}")
}
