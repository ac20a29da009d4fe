//! In place: what is left to do, each in its place.
//!
//! **When it works.** Where each entry keeps its place behind those that are tried before it, and no frame hangs on two changes at once.
//! **Why it is hitless.** A Set that names a key that a table has overwrites the entry in its place (ITU-T G.988, 9.3.13), and a Set writes all
//! attributes that its mask names at once (clause 11.2). So its frames go from the treatment before to the one after, and no others change. What is
//! new is created before anything points to it, and what is old is deleted when nothing does any more.
//! **What it takes of a unit.** That it carries a Set out as one change.
use crate::changes::{Part, Writing, push_sets, push_single_sets};
use crate::entries::{changed_entries, set_entry};
use managed_entity::Class;
use mib_state::Mib;
use migration_draft::{
    Draft, OUT_OF_FORCE, UNATTACHED, create_gem_port, create_interwork, create_mapper,
    create_table, delete, has, numbers_of,
};
use omci_msg::Request;
use std::alloc::AllocError;
use vlan_rule::Entry;

/// The Creates of an instance of the goal: as it is to be; and of a table or a mapper also out of force.
fn push_creates(
    goal: &Mib,
    class: Class,
    number: u16,
    list: &mut Vec<Request>,
) -> Result<(), AllocError> {
    if let (Class::GemPort, Some(port)) = (class, goal.gem_port(number)) {
        list.push(create_gem_port(number, port))?;
    }
    if let (Class::Interwork, Some(point)) = (class, goal.interwork(number)) {
        list.push(create_interwork(number, point))?;
    }
    if let (Class::Mapper, Some(mapper)) = (class, goal.mapper(number)) {
        list.push(create_mapper(number, mapper))?;
        let mut aside = *mapper;
        aside.tp_type = OUT_OF_FORCE;
        list.push(create_mapper(number, &aside))?;
    }
    if let (Class::Vlan, Some(table)) = (class, goal.vlan(number)) {
        list.push(create_table(number, table.association, table.pointer))?;
        list.push(create_table(number, UNATTACHED.0, UNATTACHED.1))?;
    }
    Ok(())
}

/// The Creates of what the goal has of a class and is missing here.
fn push_missing(
    draft: &Draft<'_>,
    class: Class,
    list: &mut Vec<Request>,
) -> Result<(), AllocError> {
    let goal = draft.sides.goal;
    for number in &numbers_of(draft.alloc, goal, class)? {
        if !has(&draft.here, class, *number) {
            push_creates(goal, class, *number, list)?;
        }
    }
    Ok(())
}

/// The Sets of entries of a table, each alone.
fn push_alone(number: u16, entries: &[Entry], list: &mut Vec<Request>) -> Result<(), AllocError> {
    for entry in entries {
        list.push(set_entry(number, entry))?;
    }
    Ok(())
}

/// The Sets of entries of a table, each with the other attributes that differ, where they have room.
fn push_together(
    draft: &Draft<'_>,
    number: u16,
    entries: &[Entry],
    list: &mut Vec<Request>,
) -> Result<(), AllocError> {
    let (here, goal) = (&draft.here, draft.sides.goal);
    for entry in entries {
        let writing = Writing::with(here, goal, Class::Vlan, number, Part::Others, Some(entry));
        if let Some(request) = writing.request(Class::Vlan, number) {
            list.push(request)?;
        }
    }
    Ok(())
}

/// The Sets of entries of a table. With the last one the other attributes that differ are written too, where they have room.
fn push_entries(
    draft: &Draft<'_>,
    number: u16,
    entries: &[Entry],
    list: &mut Vec<Request>,
) -> Result<(), AllocError> {
    let (here, goal) = (&draft.here, draft.sides.goal);
    let attributes = Writing::of(here, goal, Class::Vlan, number, Part::Others);
    if attributes.is_empty() {
        return push_alone(number, entries, list);
    }
    if entries.len() == 1 {
        push_together(draft, number, entries, list)?;
        return push_alone(number, entries, list);
    }
    push_alone(number, entries, list)?;
    push_together(draft, number, entries, list)
}

/// The Sets of what differs in the instances of a class that are there and stay.
fn push_differing(
    draft: &Draft<'_>,
    class: Class,
    list: &mut Vec<Request>,
) -> Result<(), AllocError> {
    let (here, goal) = (&draft.here, draft.sides.goal);
    for number in &numbers_of(draft.alloc, goal, class)? {
        if !has(here, class, *number) {
            continue;
        }
        if let (Class::Vlan, Some(held), Some(wanted)) = (
            class,
            here.vlan(*number),
            goal.vlan(*number),
        ) {
            let entries = changed_entries(
                draft.alloc,
                *number,
                &held.table,
                &wanted.table,
                &draft.temporaries,
            )?;
            push_entries(draft, *number, &entries, list)?;
        }
        push_sets(here, goal, class, *number, list)?;
    }
    Ok(())
}

/// The Deletes of what isn't in the goal, but for what is made for the time of the way.
fn push_left(draft: &Draft<'_>, class: Class, list: &mut Vec<Request>) -> Result<(), AllocError> {
    for number in &numbers_of(draft.alloc, &draft.here, class)? {
        let is_temporary = draft
            .temporaries
            .iter()
            .any(|each| each.is_instance(class, *number));
        if !is_temporary && !has(draft.sides.goal, class, *number) {
            list.push(delete(class, *number))?;
        }
    }
    Ok(())
}

/// The Sets of one attribute each, of what differs in the instances of a class.
fn push_singles(
    draft: &Draft<'_>,
    class: Class,
    list: &mut Vec<Request>,
) -> Result<(), AllocError> {
    let (here, goal) = (&draft.here, draft.sides.goal);
    for number in &numbers_of(draft.alloc, goal, class)? {
        if has(here, class, *number) {
            push_single_sets(here, goal, class, *number, list)?;
        }
    }
    Ok(())
}

/// What is left to do attribute by attribute, where nothing may be next that does more at once.
pub(crate) fn left_by_attributes(draft: &Draft<'_>) -> Result<Vec<Request>, AllocError> {
    let mut list = Vec::new(draft.alloc);
    for class in [Class::Vlan, Class::Mapper, Class::Interwork, Class::GemPort] {
        push_singles(draft, class, &mut list)?;
    }
    Ok(list)
}

/// What is left to do, in the order in which it is tried: what is new, from the GEM ports up; what differs, from the tables down; and what is old,
/// from the mappers down.
pub(crate) fn left_to_do(draft: &Draft<'_>) -> Result<Vec<Request>, AllocError> {
    let mut list = Vec::new(draft.alloc);
    push_missing(draft, Class::GemPort, &mut list)?;
    push_missing(draft, Class::Interwork, &mut list)?;
    push_missing(draft, Class::Vlan, &mut list)?;
    push_differing(draft, Class::Vlan, &mut list)?;
    push_missing(draft, Class::Mapper, &mut list)?;
    push_differing(draft, Class::Mapper, &mut list)?;
    push_differing(draft, Class::Interwork, &mut list)?;
    push_differing(draft, Class::GemPort, &mut list)?;
    push_left(draft, Class::Mapper, &mut list)?;
    push_left(draft, Class::Vlan, &mut list)?;
    push_left(draft, Class::Interwork, &mut list)?;
    push_left(draft, Class::GemPort, &mut list)?;
    Ok(list)
}
