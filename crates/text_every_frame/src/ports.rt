//! The ports whose frames are looked at.
ghost use Rattle.std.specs.Prelude.{◌≡◌, [], ◌∷◌, IfOk};
ghost use Rattle.text_every_frame.specs.Ports.{AreJoined, ArePorts, ArePortsOfSides};

use explain_findings::named_ports;
use mib_state::Mib;
use std::alloc::{AllocError, Global};

/// Adds ports to others: all of them ascending, each once.
pub(crate) fn add_ports(ports: &mut Vec<u16>, more: &[u16]) -> Result<(), AllocError>
    ensures { IfOk result (λ _. AreJoined ports.old.items more.now ports.new.items) }
{
    ports.extend_from_slice(more)?;
    ports.sort_unstable();
    ports.dedup();
    Ok(())
}

/// One port alone.
fn only_port(alloc: Global, port: u16) -> Result<Vec<u16>, AllocError>
    ensures { IfOk result (λ list. list.items ≡ port ∷ []) }
{
    let mut ports = Vec::new(alloc);
    ports.push(port)?;
    Ok(ports)
}

/// The ports whose frames are looked at: the one that is asked for; or those that managed entities name, ascending, each once. Err only where
/// memory is refused.
pub fn ports_of(alloc: Global, mib: &Mib, asked: Option<u16>) -> Result<Vec<u16>, AllocError>
    ensures { IfOk result (λ list. ArePorts asked mib.now.entities list.items) }
{
    match asked {
        Some(port) => only_port(alloc, port),
        None => named_ports(alloc, mib),
    }
}

/// The same of two configurations: without a port that is asked for, those that either side names.
pub(crate) fn ports_of_sides(
    alloc: Global,
    before: &Mib,
    after: &Mib,
    asked: Option<u16>,
) -> Result<Vec<u16>, AllocError>
    ensures { IfOk result (λ list. ArePortsOfSides asked before.now.entities after.now.entities
        list.items) }
{
    let mut ports = ports_of(alloc, before, asked)?;
    add_ports(&mut ports, &ports_of(alloc, after, asked)?)?;
    Ok(ports)
}
