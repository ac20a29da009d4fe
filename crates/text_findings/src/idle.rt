//! GEM ports that no frame comes by, since no frame has a priority that leads there.
use crate::priorities::{Priorities, at_mapper};
use frame_meaning::port_id_of;
use managed_entity::Class;
use mib_state::Mib;
use pmapper::Mapper;
use std::alloc::{AllocError, Global};
use std::fmt;

/// The most instances that a class may have.
const MOST_INSTANCES: usize = 256;

/// A GEM port to which mappers in force lead, each by priorities alone that no frame has there.
#[derive(Clone, Copy)]
pub(crate) struct IdleGemPort {
    pub(crate) gem_port: u16,
    /// The first of these mappers.
    pub(crate) mapper: u16,
    /// The priorities by which it leads there.
    pub(crate) priorities: Priorities,
}

impl fmt::Display for IdleGemPort {
    fn fmt<W: fmt::Write>(&self, f: &mut fmt::Formatter<W>) -> fmt::Result {
        write!(f, "mapper 0x{:04x} leads to it by ", self.mapper)?;
        let is_one = self.priorities.len() == 1;
        let mut separator = if is_one { "priority " } else { "priorities " };
        for priority in 0..8 {
            if self.priorities.has(priority) {
                write!(f, "{separator}{priority}")?;
                separator = ", ";
            }
        }
        let which = if is_one { "that" } else { "one of these" };
        write!(
            f,
            ", and no entry of the port's table leaves a frame with {which}"
        )
    }
}

/// The GEM ports that carry frames upstream, and to which mappers in force lead by priorities alone that no frame has there; by
/// ascending number. A port that drops all its frames counts for none.
pub(crate) fn idle_gem_ports(alloc: Global, mib: &Mib) -> Result<Vec<IdleGemPort>, AllocError> {
    let mut idle = Vec::new(alloc);
    for place in 0..MOST_INSTANCES {
        let Some(held) = mib.instance_at(Class::GemPort.number(), place) else {
            break;
        };
        if carries_upstream(mib, held.number())
            && let Some(found) = idle_at(mib, held.number())
        {
            idle.push(found)?;
        }
    }
    Ok(idle)
}

/// Whether the GEM port of a number carries frames upstream.
fn carries_upstream(mib: &Mib, number: u16) -> bool {
    match mib.gem_port(number) {
        Some(gem) => port_id_of(gem).is_ok(),
        None => false,
    }
}

/// What is found of the GEM port of a number, if no frame comes by it and a mapper leads to it.
fn idle_at(mib: &Mib, gem_port: u16) -> Option<IdleGemPort> {
    let mut first = None;
    for place in 0..MOST_INSTANCES {
        let Some((number, mapper)) = mib.mapper_at(place) else {
            break;
        };
        let priorities = leading(mib, number, mapper, gem_port);
        if priorities.is_empty() {
            continue;
        }
        let come = at_mapper(mib, number);
        if priorities.meet(come) {
            return None;
        }
        if first.is_none() && !come.is_empty() {
            first = Some(IdleGemPort {
                gem_port,
                mapper: number,
                priorities,
            });
        }
    }
    first
}

/// The priorities by which a mapper leads to a GEM port; none where it is in force at no port.
fn leading(mib: &Mib, number: u16, mapper: &Mapper, gem_port: u16) -> Priorities {
    let mut priorities = Priorities::NONE;
    if mib.mapper_of_port(mapper.tp_pointer) != Some(number) {
        return priorities;
    }
    for priority in 0..8u8 {
        let pointer = mapper.interwork_tp_pointers.get(usize::from(priority));
        if let Some(pointer) = pointer
            && leads_to(mib, *pointer, gem_port)
        {
            priorities = priorities.with(Priorities::only(priority));
        }
    }
    priorities
}

/// Whether the GEM interworking termination point of a number leads to a GEM port.
fn leads_to(mib: &Mib, point: u16, gem_port: u16) -> bool {
    match mib.interwork(point) {
        Some(point) => point.gem_port_pointer == gem_port,
        None => false,
    }
}
