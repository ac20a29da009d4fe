//! What ports do with frames on a way, from request to request.
use crate::sides::Sides;
use explain_findings::named_ports;
use frame_rows::Rows;
use mib_state::Mib;
use migration_check::{Moment, follow};
use std::alloc::{AllocError, Global};

/// A port, and its rows at a moment of a way behind which nothing was torn.
#[derive(Drop)]
pub(crate) struct Watched {
    port: u16,
    rows: Rows,
}

/// The ports that a configuration names, or one at the ends does.
fn ports_of(alloc: Global, sides: &Sides<'_>, here: &Mib) -> Result<Vec<u16>, AllocError> {
    let mut ports = named_ports(alloc, sides.before)?;
    ports.extend_from_slice(&named_ports(alloc, here)?)?;
    ports.extend_from_slice(&named_ports(alloc, sides.goal)?)?;
    ports.sort_unstable();
    ports.dedup();
    Ok(ports)
}

/// The rows of a port here, or None where the configuration here tears a frame there.
fn follow_port(
    alloc: Global,
    moment: &Moment<'_>,
    last: &[Watched],
) -> Result<Option<Rows>, AllocError> {
    match last.iter().find(|each| each.port == moment.port) {
        Some(watched) => follow(alloc, moment, &watched.rows),
        None => {
            let first = Rows::of(alloc, moment.before, moment.port)?;
            follow(alloc, moment, &first)
        }
    }
}

/// What ports do with frames here, from what they did at a moment before; or None where the configuration here tears a frame.
pub(crate) fn watch(
    alloc: Global,
    sides: &Sides<'_>,
    here: &Mib,
    last: &[Watched],
) -> Result<Option<Vec<Watched>>, AllocError> {
    let ports = ports_of(alloc, sides, here)?;
    let mut watched = Vec::with_capacity(alloc, ports.len())?;
    for port in &ports {
        let moment = Moment {
            before: sides.before,
            here,
            after: sides.goal,
            port: *port,
        };
        let Some(rows) = follow_port(alloc, &moment, last)? else {
            return Ok(None);
        };
        watched.push(Watched { port: *port, rows })?;
    }
    Ok(Some(watched))
}
