//! The ports that managed entities name.
ghost use Rattle.std.specs.Prelude.{IfOk};
ghost use Rattle.explain_findings.specs.Ports.{AreNamedPorts};

use crate::reach::ports;
use mib_state::Mib;
use std::alloc::{AllocError, Global};

/// The ports that the TP pointer of an 802.1p mapper service profile (ITU-T G.988, 9.3.10) or the associated ME pointer of an extended
/// VLAN tagging operation configuration data (9.3.13) names, ascending, each once. Err only where memory is refused.
pub fn named_ports(alloc: Global, mib: &Mib) -> Result<Vec<u16>, AllocError>
    ensures { IfOk result (λ list. AreNamedPorts mib.now.entities list.items) }
{
    let mut list = ports(alloc, mib)?;
    list.sort_unstable();
    list.dedup();
    Ok(list)
}
