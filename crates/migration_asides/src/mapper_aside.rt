//! A mapper aside: filled with TP type 0, and put in force in one Set.
//!
//! **When it works.** Where more of a port's mapper has to change at once than a Set has room for, or its pointers and what they lead to.
//! **Why it is hitless.** A mapper with TP type 0 is no port's (ITU-T G.988, 9.3.10). One Set of the attributes 1 and 13 puts it in force, under
//! a lesser number than the one in force. That is then changed out of force, and is in force again when the new one is deleted.
//! **What it takes of a unit.** A free number, and that of two mappers that name one port the one of least number is in force.
use crate::aside::{
    chains_for, free_below, free_number, is_chain_there, is_table_there, is_zero, ports_of,
    set_mapping, table_aside, table_at, take_aside,
};
use arrayvec::ArrayVec;
use managed_entity::Class;
use mib_state::{ASSOCIATION_MAPPER, ASSOCIATION_UNI, TP_TYPE_UNI};
use migration_draft::{Draft, MOST_INSTANCES, OUT_OF_FORCE, UNATTACHED, create_mapper, put, set};
use pmapper::Mapper;
use std::alloc::AllocError;

/// The mask of a mapper's TP pointer and TP type.
const ATTACHED: u16 = 0x8008;

/// The mask of a mapper's DSCP to P-bit mapping.
const MAPPING: u16 = 0x0020;

/// The mask of a table's association type and associated ME pointer.
const ASSOCIATED: u16 = 0x8200;

/// A free number of a mapper that is in force at a port before the one that is.
fn number_for(draft: &Draft<'_>, port: u16) -> Option<u16> {
    match draft.here.mapper_of_port(port) {
        Some(held) => free_below(draft, Class::Mapper, held),
        None => free_number(draft, Class::Mapper),
    }
}

/// Lets the port's own tables hang elsewhere, without effect: the one in force on the port's mapper, hidden ones on none.
fn detach_tables(draft: &mut Draft<'_>, port: u16) -> Result<bool, AllocError> {
    let Some(mapper) = draft.here.mapper_of_port(port) else {
        return Ok(true);
    };
    let Some(own) = draft.here.own_table_of_port(port) else {
        return Ok(true);
    };
    for place in 0..MOST_INSTANCES {
        let Some((number, table)) = draft.here.vlan_at(place) else {
            break;
        };
        let is_hidden = table.association == ASSOCIATION_UNI
            && table.pointer == port
            && number != own;
        if is_hidden && !attach_table(draft, number, UNATTACHED)? {
            return Ok(false);
        }
    }
    attach_table(draft, own, (ASSOCIATION_MAPPER, mapper))
}

/// Sets what a table is attached to.
pub(crate) fn attach_table(
    draft: &mut Draft<'_>,
    number: u16,
    attached: (u8, u16),
) -> Result<bool, AllocError> {
    let mut values: ArrayVec<u8, 3> = ArrayVec::new();
    put(&mut values, &[attached.0]);
    put(&mut values, &attached.1.to_be_bytes());
    draft.take(&set(Class::Vlan, number, ASSOCIATED, &values))
}

/// Whether the mapper in force at a port is as in the goal already, and so is what it leads to.
fn is_mapper_there(draft: &Draft<'_>, port: u16, wanted: &Mapper) -> bool {
    let here = &draft.here;
    let held = here
        .mapper_of_port(port)
        .and_then(|number| here.mapper(number));
    let mut are_there = held.is_some_and(|held| *held == *wanted);
    for pointer in &wanted.interwork_tp_pointers {
        are_there = are_there && is_chain_there(draft, *pointer);
    }
    are_there
}

/// Puts the mapper of the goal in force at a port, under a free number; and its table with it, where the table has to change too.
fn at_port(draft: &mut Draft<'_>, port: u16, with_table: bool) -> Result<bool, AllocError> {
    let goal = draft.sides.goal;
    let Some(wanted) = goal
        .mapper_of_port(port)
        .and_then(|number| goal.mapper(number))
    else {
        return Ok(false);
    };
    if is_mapper_there(draft, port, wanted) {
        return Ok(false);
    }
    let Some(number) = number_for(draft, port) else {
        return Ok(false);
    };
    let Some(pointers) = chains_for(draft, wanted)? else {
        return Ok(false);
    };
    let mut aside = *wanted;
    aside.tp_type = OUT_OF_FORCE;
    aside.interwork_tp_pointers = pointers;
    if !take_aside(draft, Class::Mapper, number, &create_mapper(number, &aside))? {
        return Ok(false);
    }
    if !is_zero(&wanted.dscp_map)
        && !draft.take(&set_mapping(Class::Mapper, number, MAPPING, &wanted.dscp_map))?
    {
        return Ok(false);
    }
    if with_table && !with_its_table(draft, port, number)? {
        return Ok(false);
    }
    let mut values: ArrayVec<u8, 3> = ArrayVec::new();
    put(&mut values, &port.to_be_bytes());
    put(&mut values, &[TP_TYPE_UNI]);
    draft.take(&set(Class::Mapper, number, ATTACHED, &values))
}

/// Hangs the table of the goal on a mapper that is made aside, and lets the port's own tables hang elsewhere.
fn with_its_table(draft: &mut Draft<'_>, port: u16, mapper: u16) -> Result<bool, AllocError> {
    let goal = draft.sides.goal;
    let Some(number) = free_number(draft, Class::Vlan) else {
        return Ok(false);
    };
    let attached = (ASSOCIATION_MAPPER, mapper);
    if !table_aside(draft, number, attached, table_at(goal, port))? {
        return Ok(false);
    }
    detach_tables(draft, port)
}

/// Does so at the ports whose mapper isn't that of the goal yet; with its table where that isn't either, if tables may be.
pub fn make_mapper_aside(draft: &mut Draft<'_>, with_table: bool) -> Result<bool, AllocError> {
    let mut is_done = false;
    for port in &ports_of(draft)? {
        let (count, temporaries) = (draft.plan.len(), draft.temporaries.len());
        let with_its = with_table && !is_table_there(draft, *port)?;
        if at_port(draft, *port, with_its)? {
            is_done = true;
        } else if draft.plan.len() > count {
            draft.cut(count, temporaries)?;
        }
    }
    Ok(is_done)
}
