//! The ports at which frames are looked at.
ghost use Rattle.std.specs.Prelude.{◌≡◌, IfOk};
ghost use Rattle.mib_state.specs.After.{after};
ghost use Rattle.migration_check.specs.Ports.{AreAdded, AreNamedBy, AreNamedOnWay};

use crate::accepting::entities_after;
use explain_findings::named_ports;
use mib_state::Mib;
use omci_msg::Request;
use std::alloc::{AllocError, Global};

/// Adds the ports that managed entities name to others: all of them ascending, each once.
fn add_ports(alloc: Global, ports: &mut Vec<u16>, mib: &Mib) -> Result<(), AllocError>
    ensures { IfOk result (λ _. AreAdded ports.old.items mib.now.entities ports.new.items) }
{
    let more = named_ports(alloc, mib)?;
    ports.extend_from_slice(&more)?;
    ports.sort_unstable();
    ports.dedup();
    Ok(())
}

/// The ports that any of two configurations names.
pub(crate) fn ports_of(alloc: Global, one: &Mib, other: &Mib) -> Result<Vec<u16>, AllocError>
    ensures { IfOk result (λ list. AreNamedBy one.now.entities other.now.entities list.items) }
{
    let mut ports = Vec::new(alloc);
    add_ports(alloc, &mut ports, one)?;
    add_ports(alloc, &mut ports, other)?;
    Ok(ports)
}

/// Adds the ports that any configuration on a way names, from what is here on, to others.
fn add_ports_on_way(
    alloc: Global,
    ports: &mut Vec<u16>,
    here: &mut Mib,
    requests: &[Request],
) -> Result<(), AllocError>
    ensures { IfOk result (λ _. AreNamedOnWay here.old.entities requests.now ports.new.items) }
{
    add_ports(alloc, ports, here)?;
    for each in requests {
        let _ = here.carry_out(each);
        add_ports(alloc, ports, here)?;
    }
    Ok(())
}

/// The ports that any configuration names on a way from what earlier requests lead to.
pub(crate) fn ports_on_way(
    alloc: Global,
    earlier: &[Request],
    requests: &[Request],
) -> Result<Vec<u16>, AllocError>
    ensures { IfOk result (λ list. AreNamedOnWay (after earlier.now) requests.now list.items) }
{
    let mut here = entities_after(alloc, earlier)?;
    let mut ports = Vec::new(alloc);
    add_ports_on_way(alloc, &mut ports, &mut here, requests)?;
    Ok(ports)
}
