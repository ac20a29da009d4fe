//! A change: a part of the requests that a trace asks, and what they lead from and to.
use crate::ports::{add_ports, ports_of};
use mib_state::Mib;
use script_trace::{Accepted, Applied};
use std::alloc::{AllocError, Global};

/// A change: the requests that were accepted before it, those of it, and what they lead to.
#[derive(Drop)]
pub(crate) struct Change<'a> {
    pub(crate) earlier: &'a [Accepted],
    pub(crate) requests: &'a [Accepted],
    pub(crate) before: Mib,
    pub(crate) after: &'a Mib,
}

/// The requests that stand up to a line, of those that were accepted in this order.
fn accepted_until(accepted: &[Accepted], line: u64) -> &[Accepted] {
    let behind = accepted.iter().position(|each| each.line > line);
    let count = behind.unwrap_or(accepted.len());
    accepted.split_at(count.min(accepted.len())).0
}

/// The managed entities that requests lead to, which were accepted in this order.
pub(crate) fn entities_of(alloc: Global, accepted: &[Accepted]) -> Result<Mib, AllocError> {
    let mut mib = Mib::new(alloc)?;
    for each in accepted {
        let _ = mib.carry_out(&each.request);
    }
    Ok(mib)
}

impl<'a> Change<'a> {
    /// The change from a line to the end of a trace that left this.
    pub(crate) fn of(
        alloc: Global,
        applied: &'a Applied,
        from: u64,
    ) -> Result<Change<'a>, AllocError> {
        let earlier = accepted_until(&applied.accepted, from);
        let count = earlier.len().min(applied.accepted.len());
        let (_, requests) = applied.accepted.split_at(count);
        Ok(Change {
            earlier,
            requests,
            before: entities_of(alloc, earlier)?,
            after: &applied.mib,
        })
    }

    /// The ports whose frames are looked at: the one that is asked for, or those that the managed entities of any of its moments name, ascending, each
    /// once.
    pub(crate) fn ports(&self, alloc: Global, asked: Option<u16>) -> Result<Vec<u16>, AllocError> {
        if asked.is_some() {
            return ports_of(alloc, &self.before, asked);
        }
        let mut mib = entities_of(alloc, self.earlier)?;
        let mut ports = ports_of(alloc, &mib, None)?;
        for each in self.requests {
            let _ = mib.carry_out(&each.request);
            add_ports(&mut ports, &ports_of(alloc, &mib, None)?)?;
        }
        Ok(ports)
    }
}
